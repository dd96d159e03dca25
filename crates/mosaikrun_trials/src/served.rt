//! What a child of one of the kinds says on its link, as it is served there.

use mk_base::{LinkNo, List, Mem};
use mk_fakes::{Chunk, MemFleet};
use mk_local::Registry;
use mk_simapi::child;
use mosaikrun_samples::{counter_requests, frames_of, once, push_chunk, said_on, willing};
use std::alloc::Global;
use std::sync::Wait;

/// The frames that a child of this kind says to these, up to a stop; none where it doesn't come to the stop.
pub fn replies_to<R: Wait>(
    rt: &R,
    alloc: Global,
    kinds: &Registry,
    kind: &str,
    requests: &[u8],
) -> Result<Vec<u8>, Mem> {
    let chunks = at_once(alloc, requests)?;
    let mut fleet = willing(alloc, chunks)?;
    replies_over(rt, alloc, kinds, kind, &mut fleet)
}

fn replies_over<R: Wait>(
    rt: &R,
    alloc: Global,
    kinds: &Registry,
    kind: &str,
    fleet: &mut MemFleet,
) -> Result<Vec<u8>, Mem> {
    if status_of(rt, alloc, kinds, kind, fleet)? != 0 {
        return Ok(Vec::new(alloc));
    }
    said_on(alloc, fleet, LinkNo(0))
}

fn at_once(alloc: Global, bytes: &[u8]) -> Result<List<Chunk>, Mem> {
    let mut chunks = List::new(alloc);
    push_chunk(alloc, &mut chunks, once(0), bytes)?;
    Ok(chunks)
}

// The status of a child of this kind, which connects over the fleet.
fn status_of<R: Wait>(
    rt: &R,
    alloc: Global,
    kinds: &Registry,
    kind: &str,
    fleet: &mut MemFleet,
) -> Result<u8, Mem> {
    let words = words_of(alloc, kind)?;
    Ok(child(rt, alloc, words.as_slice(), fleet, kinds))
}

fn words_of(alloc: Global, kind: &str) -> Result<Vec<String>, Mem> {
    let mut words = Vec::new(alloc);
    words.push(String::from_str(alloc, kind)?)?;
    words.push(String::from_str(alloc, "127.0.0.1:5000")?)?;
    Ok(words)
}

const REPLIES: [&str; 6] = [
    r#"[1,0,{"api_version":"3.0","models":{"Count":{"attrs":["out"],"params":["start"],"public":true}},"type":"time-based"}]"#,
    r#"[1,1,[{"eid":"0","type":"Count"}]]"#,
    "[1,2,null]",
    "[1,3,1]",
    "[1,4,2]",
    "[1,5,3]",
];

/// Whether a counter that is stepped three times and stopped replies as it must.
pub fn is_counter_served<R: Wait>(rt: &R, alloc: Global, kinds: &Registry) -> Result<bool, Mem> {
    let requests = counter_requests(alloc, true)?;
    let said = replies_to(rt, alloc, kinds, "counter", requests.as_slice())?;
    Ok(said.as_slice() == frames_of(alloc, &REPLIES)?.as_slice())
}
