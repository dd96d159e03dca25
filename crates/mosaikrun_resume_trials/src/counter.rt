//! A counter over a link, which was stepped twice when its run was cut short: what the run comes to that goes on from
//! its record.

use crate::going::told;
use mk_base::{LinkNo, List, Mem};
use mk_fakes::{Chunk, MemFleet};
use mosaikrun_samples::{
    COUNTER, Outcome, RECORD, TALK, TEXT, count_right, counter_requests, is_both, once, push_reply,
    requests_length, said_on, willing,
};
use std::alloc::Global;
use std::sync::Wait;

// The counter's scenario with more time, and with a limit of entries.
const LONGER: &str = r#"until = 4
[[sim]]
name = "A"
command = "a %(addr)s"
params = { step = 1 }
[[entities]]
id = "a"
sim = "A-0"
model = "Count"
params = { start = 0 }
"#;

const ROOMY: &str = r#"until = 3
max_entries = 100
[[sim]]
name = "A"
command = "a %(addr)s"
params = { step = 1 }
[[entities]]
id = "a"
sim = "A-0"
model = "Count"
params = { start = 0 }
"#;

// The record of the run that was cut short, and one of a plan with a limit of four entries that has all its messages.
const CUT: &str = r#"mosaikrun 1
run [3,100,2000000]
sim ["A-0","time-based",3,0,[]]
model [0,"Count",["out"],false]
entity [0,"0",[]]
got [0,[1,3,1]]
got [0,[1,4,2]]
end 2
"#;

const LIMITED: &str = r#"mosaikrun 1
run [3,100,4]
sim ["A-0","time-based",3,0,[]]
model [0,"Count",["out"],false]
entity [0,"0",[]]
got [0,[1,3,1]]
got [0,[1,4,2]]
got [0,[1,5,3]]
end 3
"#;

// The record of the whole run with the other limit of entries, and that of the run up to its third step.
const WHOLE_ROOMY: &str = r#"mosaikrun 2
run [3,100,100]
sim ["A-0","time-based",3,0,[]]
model [0,"Count",["out"],false]
entity [0,"0",[]]
ask [0,0,0,3]
got [0,[1,3,1]]
ask [0,1,0,3]
got [0,[1,4,2]]
ask [0,2,0,3]
got [0,[1,5,3]]
end 6
"#;

const FRONT: &str = r#"mosaikrun 2
run [3,100,2000000]
sim ["A-0","time-based",3,0,[]]
model [0,"Count",["out"],false]
entity [0,"0",[]]
ask [0,0,0,3]
got [0,[1,3,1]]
ask [0,1,0,3]
got [0,[1,4,2]]
ask [0,2,0,3]
end 5
"#;

// A scenario, a record, the reply to the first step, and what the run comes to that goes on: its text and its record.
#[derive(Drop)]
struct Row {
    scenario: &'static str,
    old: &'static str,
    first: &'static str,
    text: &'static str,
    new: &'static str,
}

const ROWS: [Row; 4] = [
    Row {
        scenario: COUNTER,
        old: CUT,
        first: "[1,3,1]",
        text: TEXT,
        new: RECORD,
    },
    Row {
        scenario: COUNTER,
        old: CUT,
        first: "[1,3,2]",
        text: "5 mosaikrun: run 11: A-0 message 0 differs\n",
        new: FRONT,
    },
    Row {
        scenario: LONGER,
        old: CUT,
        first: "[1,3,1]",
        text: "5 mosaikrun: run 10: record of another plan (1)\n",
        new: "",
    },
    Row {
        scenario: ROOMY,
        old: LIMITED,
        first: "[1,3,1]",
        text: TEXT,
        new: WHOLE_ROOMY,
    },
];

// What comes on the link, each reply once its request was said.
fn replies(alloc: Global, first: &str) -> Result<List<Chunk>, Mem> {
    let mut chunks = List::new(alloc);
    for place in 0..TALK.len() {
        let when = once(requests_length(&TALK[..=place]));
        let reply = if place == 3 { first } else { TALK[place].1 };
        push_reply(alloc, &mut chunks, when, reply, 1000)?;
    }
    Ok(chunks)
}

fn fleet_of(alloc: Global, first: &str) -> Result<MemFleet, Mem> {
    let chunks = replies(alloc, first)?;
    willing(alloc, chunks)
}

fn come_to<R: Wait>(rt: &R, alloc: Global, row: &Row) -> Result<Outcome, Mem> {
    let mut fleet = fleet_of(alloc, row.first)?;
    told(rt, alloc, row.scenario, row.old, &mut fleet)
}

fn is_right<R: Wait>(rt: &R, alloc: Global, row: &Row) -> Result<bool, Mem> {
    let outcome = come_to(rt, alloc, row)?;
    Ok(is_both(&outcome, row.text, row.new))
}

fn rows_right<R: Wait>(rt: &R, alloc: Global) -> Result<usize, Mem> {
    count_right(&ROWS, |row| is_right(rt, alloc, row))
}

#[test]
fn a_run_goes_on_from_its_record(rt: HostRuntime) {
    assert_eq!(rt; rows_right(&rt, rt.alloc()), Ok(4));
}

// Whether all requests are said on the link, byte for byte, as in a run that wasn't cut.
fn is_said<R: Wait>(rt: &R, alloc: Global) -> Result<bool, Mem> {
    let wanted = counter_requests(alloc, true)?;
    let mut fleet = fleet_of(alloc, "[1,3,1]")?;
    drop(told(rt, alloc, COUNTER, CUT, &mut fleet)?);
    is_heard(alloc, &fleet, wanted.as_slice())
}

fn is_heard(alloc: Global, fleet: &MemFleet, wanted: &[u8]) -> Result<bool, Mem> {
    let said = said_on(alloc, fleet, LinkNo(0))?;
    Ok(said.as_slice() == wanted)
}

#[test]
fn a_simulator_is_asked_as_if_its_run_had_not_been_cut(rt: HostRuntime) {
    assert_eq!(rt; is_said(&rt, rt.alloc()), Ok(true));
}
