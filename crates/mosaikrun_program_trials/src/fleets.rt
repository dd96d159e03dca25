//! Calls of the program that run a counter over a fleet of which one call fails.

use crate::calls::status_over;
use crate::files::{SAVED, THREE_STEPS};
use mk_base::{List, Mem};
use mk_fakes::{LogEntry, MemFleet, PlainFolder, PlainSink};
use mk_local::Registry;
use mosaikrun_samples::{COUNTER, TALK, replies_of};
use std::alloc::Global;
use std::sync::Wait;

const RUN: &[&str] = &["run", "s", "--record", "k"];

const FLEET: &str = "mosaikrun: outside: fleet\n";

/// A fleet on which the counter replies, and of which the calls of these numbers fail.
pub fn answering(alloc: Global, fails: List<u64>) -> Result<MemFleet, Mem> {
    let chunks = replies_of(alloc, &TALK, 1000)?;
    MemFleet::new(alloc, chunks, fails, 1_000_000, 0, 100_000)
}

fn failing_at(alloc: Global, call: u64) -> Result<MemFleet, Mem> {
    let mut calls = List::new(alloc);
    calls.push(call)?;
    answering(alloc, calls)
}

// What is saved as `k`.
fn saved(folder: &PlainFolder) -> &[u8] {
    folder.file("k").unwrap_or(b"".as_slice())
}

// Whether it is no record, or that of a beginning of the run: all but its last line, which is `end` with one digit.
fn is_beginning(record: &[u8]) -> bool {
    let length = record.len().saturating_sub(6).min(record.len());
    SAVED.as_bytes().starts_with(&record[..length])
}

// Whether the run was ended by the fleet: nothing is printed, and a record is saved of what had come.
fn is_cut(status: u8, folder: &PlainFolder, out: &PlainSink, err: &PlainSink) -> bool {
    status == 6
        && err.bytes() == FLEET.as_bytes()
        && out.bytes() == b"".as_slice()
        && is_beginning(saved(folder))
}

// Whether the run came to its end.
fn is_whole(status: u8, folder: &PlainFolder, out: &PlainSink, err: &PlainSink) -> bool {
    status == 0
        && err.bytes() == b"".as_slice()
        && out.bytes() == THREE_STEPS.as_bytes()
        && saved(folder) == SAVED.as_bytes()
}

// A folder with the scenario.
fn folder(alloc: Global) -> Result<PlainFolder, Mem> {
    let mut folder = PlainFolder::new(alloc);
    folder.add("s", COUNTER.as_bytes())?;
    Ok(folder)
}

// Whether the run over the fleet ends so: cut, or whole.
fn is_right<R: Wait>(
    rt: &R,
    alloc: Global,
    kinds: &Registry,
    fleet: &mut MemFleet,
    cut: bool,
) -> Result<bool, Mem> {
    let mut folder = folder(alloc)?;
    let mut out = PlainSink::new(alloc);
    let mut err = PlainSink::new(alloc);
    let status = status_over(
        rt,
        alloc,
        RUN,
        &mut folder,
        fleet,
        kinds,
        &mut out,
        &mut err,
    )?;
    if cut {
        Ok(is_cut(status, &folder, &out, &err))
    } else {
        Ok(is_whole(status, &folder, &out, &err))
    }
}

// How many calls of a run to which nothing fails there are before the last message has come. Before those that are
// logged there are one that listens and one that starts.
fn calls_before(log: &[LogEntry]) -> u64 {
    let mut all: u64 = 2;
    let mut before: u64 = 2;
    for entry in log {
        all = all.saturating_add(1);
        if let LogEntry::Heard(_, _) = entry {
            before = all;
        }
    }
    before
}

// The same of the run, if that comes to its end.
fn calls_made<R: Wait>(rt: &R, alloc: Global, kinds: &Registry) -> Result<Option<u64>, Mem> {
    let mut fleet = answering(alloc, List::new(alloc))?;
    if !is_right(rt, alloc, kinds, &mut fleet, false)? {
        return Ok(None);
    }
    let log = fleet.log()?;
    Ok(Some(calls_before(log.as_slice())))
}

fn goes_right<R: Wait>(
    rt: &R,
    alloc: Global,
    kinds: &Registry,
    call: u64,
    cut: bool,
) -> Result<bool, Mem> {
    let mut fleet = failing_at(alloc, call)?;
    is_right(rt, alloc, kinds, &mut fleet, cut)
}

// The first call that doesn't go right, or 0 where the run to which nothing fails doesn't: one before the last message
// has come ends the run, and one of the stop or beyond doesn't.
fn first_wrong<R: Wait>(rt: &R, alloc: Global, kinds: &Registry) -> Result<Option<u64>, Mem> {
    let Some(before) = calls_made(rt, alloc, kinds)? else {
        return Ok(Some(0));
    };
    for call in 0..before.saturating_add(4) {
        if !goes_right(rt, alloc, kinds, call, call < before)? {
            return Ok(Some(call));
        }
    }
    Ok(None)
}

// The same where no kind is there.
fn first_wrong_alone<R: Wait>(rt: &R, alloc: Global) -> Result<Option<u64>, Mem> {
    let kinds = Registry::new(alloc);
    first_wrong(rt, alloc, &kinds)
}

#[test]
fn each_call_of_the_fleet_fails_in_turn(rt: HostRuntime) {
    assert_eq!(rt; first_wrong_alone(&rt, rt.alloc()), Ok(None));
}
