//! The counter's run by clocks that go on by themselves or by its naps alone, with and without an allowance.

use crate::pacing::{Clock, comes_to, ticking};
use mk_base::Mem;
use mk_fakes::MemFleet;
use mosaikrun_samples::{RECORD, TALK, TEXT, replies_of};
use std::alloc::Global;
use std::sync::Wait;

// A clock, whether no step may be late, and what the run comes to: its text and its record.
#[derive(Drop)]
struct Row {
    clock: Clock,
    is_strict: bool,
    text: &'static str,
    kept: &'static str,
}

// A clock that goes on by naps alone and so comes to each moment just then; one that goes on by 7 ms at each look; and
// one of a fleet that sleeps only three times.
const BY_NAPS: Clock = Clock {
    tick: 0,
    naps: 1000,
};

const BY_LOOKS: Clock = Clock {
    tick: 7,
    naps: 1000,
};

const SLEEPLESS: Clock = Clock { tick: 0, naps: 3 };

// The record of the run whose first step is too late to be sent, and of the one whose second step waits.
const UNSTEPPED: &str = r#"mosaikrun 2
run [3,100,2000000]
sim ["A-0","time-based",3,0,[]]
model [0,"Count",["out"],false]
entity [0,"0",[]]
ask [0,0,0,3]
end 1
"#;

const WAITING: &str = r#"mosaikrun 2
run [3,100,2000000]
sim ["A-0","time-based",3,0,[]]
model [0,"Count",["out"],false]
entity [0,"0",[]]
ask [0,0,0,3]
got [0,[1,3,1]]
ask [0,1,0,3]
end 3
"#;

const ROWS: [Row; 4] = [
    Row {
        clock: BY_NAPS,
        is_strict: true,
        text: TEXT,
        kept: RECORD,
    },
    Row {
        clock: BY_LOOKS,
        is_strict: true,
        text: "5 mosaikrun: run 12: A-0 step at 0 late by 7 ms, allowed 0\n",
        kept: UNSTEPPED,
    },
    Row {
        clock: BY_LOOKS,
        is_strict: false,
        text: TEXT,
        kept: RECORD,
    },
    Row {
        clock: SLEEPLESS,
        is_strict: true,
        text: "6 mosaikrun: outside: fleet\n",
        kept: WAITING,
    },
];

fn fleet_of(alloc: Global, clock: Clock) -> Result<MemFleet, Mem> {
    let chunks = replies_of(alloc, &TALK, 1000)?;
    ticking(alloc, chunks, clock)
}

fn is_right<R: Wait>(rt: &R, alloc: Global, row: &Row) -> bool {
    match fleet_of(alloc, row.clock) {
        Ok(mut fleet) => {
            let right = comes_to(rt, alloc, &mut fleet, row.is_strict, row.text, row.kept);
            drop(fleet);
            right
        }
        Err(_) => false,
    }
}

// How many rows are right, up to the first that isn't.
fn rows_right<R: Wait>(rt: &R, alloc: Global) -> usize {
    for (place, row) in ROWS.iter().enumerate() {
        if !is_right(rt, alloc, row) {
            return place;
        }
    }
    ROWS.len()
}

#[test]
fn steps_wait_for_the_clock(rt: HostRuntime) {
    assert_eq!(rt; rows_right(&rt, rt.alloc()), 4);
}
