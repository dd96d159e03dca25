//! A counter over a link, stepped three times: what is said to it byte for byte, however its replies and the writes are
//! cut.

use crate::runs::told_alone;
use mk_base::{LinkNo, List, Mem};
use mk_fakes::MemFleet;
use mosaikrun_samples::{
    COUNTER, Outcome, RECORD, TALK, TEXT, count_right, counter_requests, is_both, replies_of,
    said_on,
};
use std::alloc::Global;
use std::sync::Wait;

// Whether that is what its run came to.
fn is_whole(outcome: &Outcome) -> bool {
    is_both(outcome, TEXT, RECORD)
}

// Whether a run of it over this fleet is done, and these bytes are said on the link.
fn is_done<R: Wait>(rt: &R, alloc: Global, fleet: &mut MemFleet, said: &[u8]) -> Result<bool, Mem> {
    if !is_told_whole(rt, alloc, fleet)? {
        return Ok(false);
    }
    is_said(alloc, fleet, said)
}

fn is_told_whole<R: Wait>(rt: &R, alloc: Global, fleet: &mut MemFleet) -> Result<bool, Mem> {
    let outcome = told_alone(rt, alloc, COUNTER, fleet)?;
    Ok(is_whole(&outcome))
}

fn is_said(alloc: Global, fleet: &MemFleet, said: &[u8]) -> Result<bool, Mem> {
    let heard = said_on(alloc, fleet, LinkNo(0))?;
    Ok(heard.as_slice() == said)
}

// Of how many bytes the pieces are in which replies come, how many bytes are taken at a time, at each which write none
// are, and whether the stop is said. Where none are taken at each second write, the last write of the last request
// takes the place of an odd number, so the first one of the stop takes nothing.
type Way = (usize, usize, u64, bool);

const WAYS: [Way; 4] = [
    (1000, 1_000_000, 0, true),
    (1, 5, 2, false),
    (3, 5, 2, false),
    (1000, 5, 2, false),
];

fn fleet(alloc: Global, way: Way) -> Result<MemFleet, Mem> {
    let chunks = replies_of(alloc, &TALK, way.0)?;
    MemFleet::new(
        alloc,
        chunks,
        List::new(alloc),
        way.1.max(1),
        way.2,
        100_000,
    )
}

fn is_done_in_way<R: Wait>(rt: &R, alloc: Global, way: Way) -> Result<bool, Mem> {
    let said = counter_requests(alloc, way.3)?;
    let mut fleet = fleet(alloc, way)?;
    is_done(rt, alloc, &mut fleet, said.as_slice())
}

// In how many ways it is done, up to the first in which it isn't.
fn count_done<R: Wait>(rt: &R, alloc: Global) -> Result<usize, Mem> {
    count_right(&WAYS, |way| is_done_in_way(rt, alloc, *way))
}

#[test]
fn a_simulator_is_asked_byte_for_byte_and_its_run_recorded(rt: HostRuntime) {
    assert_eq!(rt; count_done(&rt, rt.alloc()), Ok(4));
}
