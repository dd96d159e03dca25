//! The drafts of a small run whose sink fails at some of its calls.
ghost use Rattle.std.specs.Prelude.{◌≡◌, true, length, IfOk};
ghost use Rattle.std.specs.List.{list_all};
ghost use Rattle.mk_record_write.specs.Writable.{is_writable};

use mk_base::{List, Mem, SimKind, SimNo, Tier};
use mk_fakes::MemSink;
use mk_message::{ReadFault, read};
use mk_onlooker::Onlooker;
use mk_plan::{Entry, Item, Plan};
use mk_plan_samples::{plan_of, two_simulators};
use mk_scribe::{Left, Scribe};
use std::alloc::Global;
use std::test::Fail;

// The record of the run.
const RECORD: &[u8] = b"mosaikrun 2
run [20,2,1000]
sim [\"A-0\",\"time-based\",3,0,[]]
sim [\"B-0\",\"event-based\",0,1,[]]
model [0,\"M\",[],true]
model [1,\"M\",[],true]
entity [0,\"0\",[]]
entity [1,\"0\",[]]
ask [0,0,0,20]
ask [1,0,0,20]
got [0,[1,3,1]]
got [1,[1,3,1]]
ask [0,0,0,20]
end 5
";

// What is left of a draft.
#[derive(Clone, Copy, Debug, PartialEq, Eq)]
enum Kind {
    Empty,
    Part,
    Whole,
}

// Which calls of a sink fail, by their numbers from 0; what is left of its draft; and how many bytes of the record the
// draft lacks at the end.
struct Row {
    fails: &'static [u64],
    kind: Kind,
    lacks: usize,
}

// The run pauses twice, so the calls 0 and 1 are for the lines of plan and entries. The end line, `end 5`, takes three.
const ROWS: [Row; 8] = [
    Row {
        fails: &[],
        kind: Kind::Whole,
        lacks: 0,
    },
    // what was refused at a pause is put at the next one, or at the end
    Row {
        fails: &[0],
        kind: Kind::Whole,
        lacks: 0,
    },
    Row {
        fails: &[1],
        kind: Kind::Whole,
        lacks: 0,
    },
    Row {
        fails: &[0, 1],
        kind: Kind::Whole,
        lacks: 0,
    },
    // what is refused at the end is missing there
    Row {
        fails: &[2],
        kind: Kind::Part,
        lacks: 6,
    },
    Row {
        fails: &[3],
        kind: Kind::Part,
        lacks: 2,
    },
    Row {
        fails: &[4],
        kind: Kind::Part,
        lacks: 1,
    },
    // each call fails
    Row {
        fails: &[0, 1, 2],
        kind: Kind::Part,
        lacks: 256,
    },
];

fn plan(alloc: Global) -> Result<Plan, Mem> {
    let sims = two_simulators(alloc, (SimKind::TimeBased, 3), (SimKind::EventBased, 0))?;
    plan_of(alloc, 20, 2, sims, List::new(alloc))
}

fn step(alloc: Global, sim: u32) -> Entry
    ensures { is_writable result ≡ true }
{
    let item = Item::Step {
        at: Tier { time: 0, tier: 0 },
        inputs: List::new(alloc),
        max_advance: 20,
    };
    Entry::Sent(SimNo(sim), item)
}

fn reply(alloc: Global, sim: u32) -> Result<Entry, ReadFault>
    ensures { IfOk result (λ entry. is_writable entry ≡ true) }
{
    Ok(Entry::Got(SimNo(sim), read(alloc, b"[1,3,1]")?))
}

// Both are asked; both reply; the first one is asked again.
fn entries(alloc: Global) -> Result<List<Entry>, ReadFault>
    ensures writable { IfOk result (λ entries. list_all is_writable entries ≡ true) }
    ensures length { IfOk result (λ entries. length entries ≡ 5) }
{
    let mut entries = List::new(alloc);
    entries.push(step(alloc, 0))?;
    entries.push(step(alloc, 1))?;
    entries.push(reply(alloc, 0)?)?;
    entries.push(reply(alloc, 1)?)?;
    entries.push(step(alloc, 0))?;
    Ok(entries)
}

fn sink(alloc: Global, fails: &[u64]) -> Result<MemSink, Mem> {
    let mut numbers = List::new(alloc);
    for number in fails {
        numbers.push(*number)?;
    }
    Ok(MemSink::new(alloc, numbers))
}

// Shows the entries of a run to a scribe with this draft, and has it close.
fn close(alloc: Global, plan: &Plan, entries: &[Entry], draft: Option<MemSink>) -> Left<MemSink>
    requires writable { list_all is_writable entries.now ≡ true }
    requires length { length entries.now ≡ 5 }
{
    let mut scribe = Scribe::new(alloc, draft);
    scribe.look(plan, &entries[..1], false);
    scribe.look(plan, &entries[1..3], true);
    scribe.look(plan, &entries[3..], true);
    scribe.close()
}

// Whether a sink has taken the record, except so many bytes at its end.
fn does_lack(sink: &MemSink, lacks: usize) -> bool {
    let bytes = sink.bytes();
    RECORD.starts_with(bytes) && RECORD.len().saturating_sub(bytes.len()) == lacks
}

// Whether a draft of this kind is left, and it lacks so many bytes of the record.
fn is_left(left: &Left<MemSink>, kind: Kind, lacks: usize) -> bool {
    match left {
        Left::Nothing => false,
        Left::Empty(sink) => kind == Kind::Empty && does_lack(sink, lacks),
        Left::Part(sink) => kind == Kind::Part && does_lack(sink, lacks),
        Left::Whole(sink) => kind == Kind::Whole && does_lack(sink, lacks),
    }
}

#[test]
fn a_draft_is_the_record_but_for_what_is_refused(rt: HostRuntime) -> Result<(), Fail> {
    let alloc = rt.alloc();
    let plan = plan(alloc)?;
    let entries = entries(alloc)?;
    for row in ROWS.iter() {
        let draft = sink(alloc, row.fails)?;
        let left = close(alloc, &plan, entries.as_slice(), Some(draft));
        assert!(rt; is_left(&left, row.kind, row.lacks));
    }
    // There may be no draft.
    assert!(rt; matches!(close(alloc, &plan, entries.as_slice(), None), Left::Nothing));
    Ok(())
}

#[test]
fn a_draft_of_nothing_is_left_empty(rt: HostRuntime) -> Result<(), Fail> {
    let alloc = rt.alloc();
    let scribe = Scribe::new(alloc, Some(sink(alloc, &[0])?));
    assert!(rt; is_left(&scribe.close(), Kind::Empty, RECORD.len()));
    let scribe: Scribe<MemSink> = Scribe::new(alloc, None);
    assert!(rt; matches!(scribe.close(), Left::Nothing));
    Ok(())
}
