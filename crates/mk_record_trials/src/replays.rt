//! Replays to each kind of end.

use crate::common::{PLAN, replayed};
use mk_base::{Mem, SimNo};
use mk_plan::Entry;
use mk_record_replay::ReplayEnd;
use mk_sched::CoreFault;
use std::alloc::Global;

const ANOTHER_ADVANCE: &str =
    "ask [0,0,0,2]\ngot [0,[1,3,1]]\nask [0,1,0,3]\ngot [0,[1,4,2]]\nask [0,2,0,3]\ngot [0,[1,5,3]]\nend 6\n";

// The version, lines after the plan, an order, how the replay ends, and after how many entries.
type Row = (u8, &'static str, Option<u32>, ReplayEnd, usize);

const REPLAYS: [Row; 6] = [
    (
        1,
        "got [0,[1,3,1]]\ngot [0,[1,4,2]]\ngot [0,[1,5,3]]\nend 3\n",
        None,
        ReplayEnd::Done,
        6,
    ),
    (
        1,
        "got [0,[1,3,1]]\ngot [0,[1,4,2]]\nend 2\n",
        None,
        ReplayEnd::Short(1),
        5,
    ),
    (
        2,
        "ask [0,0,1,3]\ngot [0,[1,3,0]]\nend 2\n",
        None,
        ReplayEnd::Core(CoreFault::Wrong {
            sim: SimNo(0),
            place: 0,
            cause: 3,
        }),
        2,
    ),
    (
        2,
        "ask [0,0,1,3]\ngot [0,[1,3,1]]\nend 2\n",
        None,
        ReplayEnd::Other(0),
        3,
    ),
    (2, ANOTHER_ADVANCE, None, ReplayEnd::Other(0), 6),
    (2, ANOTHER_ADVANCE, Some(1), ReplayEnd::Done, 6),
];

fn is_end(alloc: Global, text: &[u8], row: &Row) -> bool {
    match replayed(alloc, text, row.2) {
        Some(replayed) => replayed.end == row.3 && replayed.journal.entries.len() == row.4,
        None => false,
    }
}

// Whether the replay of a counter's record ends so.
fn does_end(alloc: Global, row: &Row) -> bool {
    match format!(in alloc; "mosaikrun {}\n{PLAN}{}", row.0, row.1) {
        Ok(text) => is_end(alloc, text.as_bytes(), row),
        Err(_) => false,
    }
}

// How many replays end so, up to the first that doesn't.
fn count_ends(alloc: Global) -> usize {
    for (place, row) in REPLAYS.iter().enumerate() {
        if !does_end(alloc, row) {
            return place;
        }
    }
    REPLAYS.len()
}

#[test]
fn replays_end_by_what_came(rt: HostRuntime) {
    assert_eq!(rt; count_ends(rt.alloc()), REPLAYS.len());
}

const TWO_COUNTERS: &[u8] = b"mosaikrun 1
run [3,100,2000000]
sim [\"A-0\",\"time-based\",3,0,[]]
sim [\"B-0\",\"time-based\",3,1,[]]
got [0,[1,3,1]]
got [0,[1,4,2]]
got [0,[1,5,3]]
got [1,[1,3,1]]
got [1,[1,4,2]]
got [1,[1,5,3]]
end 6
";

// The simulators of the messages that came, in order.
fn sims_in(alloc: Global, entries: &[Entry]) -> Result<Vec<u32>, Mem> {
    let mut sims = Vec::new(alloc);
    for entry in entries {
        match entry {
            Entry::Got(sim, _message) => sims.push(sim.0)?,
            Entry::Sent(_sim, _item) => {}
        }
    }
    Ok(sims)
}

fn are_sims(alloc: Global, entries: &[Entry], sims: &[u32]) -> bool {
    match sims_in(alloc, entries) {
        Ok(came) => came.as_slice() == sims,
        Err(_) => false,
    }
}

// Whether these are the simulators of a replay of the two counters, which comes to its end.
fn is_order(alloc: Global, order: Option<u32>, sims: &[u32]) -> bool {
    match replayed(alloc, TWO_COUNTERS, order) {
        Some(replayed) => {
            replayed.end == ReplayEnd::Done
                && are_sims(alloc, replayed.journal.entries.as_slice(), sims)
        }
        None => false,
    }
}

#[test]
fn messages_come_in_the_order_that_is_drawn(rt: HostRuntime) {
    assert!(rt; is_order(rt.alloc(), None, &[0, 0, 0, 1, 1, 1]));
    assert!(rt; is_order(rt.alloc(), Some(5), &[0, 1, 0, 1, 1, 0]));
    assert!(rt; is_order(rt.alloc(), Some(0), &[1, 0, 1, 0, 1, 0]));
}
