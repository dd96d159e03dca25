//! A counter that replies to steps before they are sent: all is done then, and these steps are never said.

use crate::pacing::{Clock, comes_to, ticking};
use mk_base::{LinkNo, List, Mem};
use mk_fakes::{Chunk, MemFleet};
use mosaikrun_samples::{
    RECORD, TALK, TEXT, once, push_frame, push_reply, requests_length, requests_of, said_on,
};
use std::alloc::Global;
use std::sync::Wait;

const CLOCK: Clock = Clock {
    tick: 0,
    naps: 1000,
};

// The stop behind the first step.
const EARLY_STOP: &str = r#"[0,4,["stop",[],{}]]"#;

// Each reply of the handshake comes once its request was said; those to all steps come behind the first step.
fn replies(alloc: Global) -> Result<List<Chunk>, Mem> {
    let mut chunks = List::new(alloc);
    for place in 0..TALK.len() {
        let when = once(requests_length(&TALK[..=place.min(3)]));
        push_reply(alloc, &mut chunks, when, TALK[place].1, 1000)?;
    }
    Ok(chunks)
}

fn fleet(alloc: Global) -> Result<MemFleet, Mem> {
    let chunks = replies(alloc)?;
    ticking(alloc, chunks, CLOCK)
}

// What is said on the link: the handshake, the first step, and the stop.
fn wanted(alloc: Global) -> Result<Vec<u8>, Mem> {
    let mut bytes = requests_of(alloc, &TALK[..4])?;
    push_frame(&mut bytes, EARLY_STOP.as_bytes())?;
    Ok(bytes)
}

fn are_bytes(alloc: Global, said: &[u8]) -> bool {
    match wanted(alloc) {
        Ok(wanted) => said == wanted.as_slice(),
        Err(_) => false,
    }
}

fn is_said(alloc: Global, fleet: &MemFleet) -> bool {
    match said_on(alloc, fleet, LinkNo(0)) {
        Ok(said) => are_bytes(alloc, said.as_slice()),
        Err(_) => false,
    }
}

fn is_right<R: Wait>(rt: &R, alloc: Global) -> bool {
    match fleet(alloc) {
        Ok(mut fleet) => {
            let done = comes_to(rt, alloc, &mut fleet, true, TEXT, RECORD);
            let said = is_said(alloc, &fleet);
            drop(fleet);
            done && said
        }
        Err(_) => false,
    }
}

#[test]
fn steps_that_were_answered_before_are_not_said(rt: HostRuntime) {
    assert!(rt; is_right(&rt, rt.alloc()));
}
