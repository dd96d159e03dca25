//! What several tests have in common: a counter's plan as lines, records of its three steps, and its journal.
ghost use Rattle.std.specs.Prelude.{◌≡◌, ◌+◌, length, true, IfOk, OnOk};
ghost use Rattle.std.specs.List.{list_all};
ghost use Rattle.mk_record_write.specs.Writable.{is_writable};

use mk_base::{List, SimNo, Tier};
use mk_message::{ReadFault, read};
use mk_plan::{Entry, Item, Journal};
use mk_record_read::read_record;
use mk_record_replay::{Replayed, replay};
use std::alloc::Global;

/// The lines of a plan of one counter.
pub const PLAN: &str =
    "run [3,100,2000000]\nsim [\"A-0\",\"time-based\",3,0,[]]\nmodel [0,\"Count\",[\"out\"],false]\nentity [0,\"0\",[]]\n";

/// The record of its three steps in version 1, in which the steps aren't told.
pub const NINE_LINES: &[u8] = b"mosaikrun 1
run [3,100,2000000]
sim [\"A-0\",\"time-based\",3,0,[]]
model [0,\"Count\",[\"out\"],false]
entity [0,\"0\",[]]
got [0,[1,3,1]]
got [0,[1,4,2]]
got [0,[1,5,3]]
end 3
";

/// The same in version 2.
pub const TWELVE_LINES: &[u8] = b"mosaikrun 2
run [3,100,2000000]
sim [\"A-0\",\"time-based\",3,0,[]]
model [0,\"Count\",[\"out\"],false]
entity [0,\"0\",[]]
ask [0,0,0,3]
got [0,[1,3,1]]
ask [0,1,0,3]
got [0,[1,4,2]]
ask [0,2,0,3]
got [0,[1,5,3]]
end 6
";

/// The replay of a record, if it can be read.
pub fn replayed(alloc: Global, text: &[u8], order: Option<u32>) -> Option<Replayed> {
    match read_record(alloc, text) {
        Ok(saved) => replay(alloc, saved, order).ok(),
        Err(_) => None,
    }
}

// A Step without inputs.
fn step(alloc: Global, time: i64) -> Item {
    Item::Step {
        at: Tier { time, tier: 0 },
        inputs: List::new(alloc),
        max_advance: 3,
    }
}

// A Step of the counter, and its reply.
fn push_turn(
    alloc: Global,
    entries: &mut List<Entry>,
    time: i64,
    reply: &[u8],
) -> Result<(), ReadFault>
    requires { list_all is_writable entries.old ≡ true }
    ensures writable { OnOk result (list_all is_writable entries.new ≡ true) }
    ensures length { OnOk result (length entries.new ≡ length entries.old + 2) }
{
    let message = read(alloc, reply)?;
    entries.push(Entry::Sent(SimNo(0), step(alloc, time)))?;
    entries.push(Entry::Got(SimNo(0), message))?;
    Ok(())
}

/// The journal of the counter's three steps.
pub fn counter_journal(alloc: Global) -> Result<Journal, ReadFault>
    ensures writable { IfOk result (λ journal. list_all is_writable journal.entries ≡ true) }
    ensures length { IfOk result (λ journal. length journal.entries ≡ 6) }
{
    let mut entries = List::new(alloc);
    push_turn(alloc, &mut entries, 0, b"[1,3,1]")?;
    push_turn(alloc, &mut entries, 1, b"[1,4,2]")?;
    push_turn(alloc, &mut entries, 2, b"[1,5,3]")?;
    Ok(Journal { entries })
}
