//! What comes of a record's messages: a core that goes on, an entry that differs, a fault.
use mk_base::SimNo;
use mk_record_read::{Saved, read_record};
use mk_record_restored::{Restored, restore};
use mk_sched::CoreFault;
use std::alloc::Global;
use std::test::Fail;

// What came of a record, and how many entries the journal has then.
#[derive(Clone, Copy, Debug, PartialEq, Eq)]
enum Came {
    Onward(usize),
    Other(u32),
    Faulted(CoreFault, usize),
}

// What comes of the record of a counter with these lines after its plan.
fn came_of(alloc: Global, lines: &str) -> Result<Came, Fail> {
    let text = format!(in alloc; "mosaikrun 2\n{PLAN}{lines}")?;
    let Saved {
        plan,
        arrivals,
        asks,
    } = read_record(alloc, text.as_bytes())?;
    let restored = restore(alloc, plan, arrivals, &asks)?;
    Ok(seen(restored))
}

fn seen(restored: Restored) -> Came {
    match restored {
        Restored::Onward(core) => Came::Onward(core.journal().entries.len()),
        Restored::Other(place) => Came::Other(place),
        Restored::Faulted(fault, _, journal) => Came::Faulted(fault, journal.entries.len()),
    }
}

// The lines of a plan of one counter.
const PLAN: &str =
    "run [3,100,2000000]\nsim [\"A-0\",\"time-based\",3,0,[]]\nmodel [0,\"Count\",[\"out\"],false]\nentity [0,\"0\",[]]\n";

// Lines after the plan, and what comes of them: two of three steps were replied to, and the third is
// asked; the second step has another `max_advance`; the first reply is wrong.
const RECORDS: [(&str, Came); 3] = [
    (
        "ask [0,0,0,3]\ngot [0,[1,3,1]]\nask [0,1,0,3]\ngot [0,[1,4,2]]\nend 4\n",
        Came::Onward(5),
    ),
    (
        "ask [0,0,0,3]\ngot [0,[1,3,1]]\nask [0,1,0,2]\ngot [0,[1,4,2]]\nend 4\n",
        Came::Other(2),
    ),
    (
        "ask [0,0,0,3]\ngot [0,[1,3,0]]\nend 2\n",
        Came::Faulted(
            CoreFault::Wrong {
                sim: SimNo(0),
                place: 0,
                cause: 3,
            },
            2,
        ),
    ),
];

#[test]
fn records_are_restored(rt: HostRuntime) -> Result<(), Fail> {
    for (lines, came) in &RECORDS {
        assert_eq!(rt; came_of(rt.alloc(), lines)?, *came);
    }
    Ok(())
}
