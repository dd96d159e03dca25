//! Records whose last lines are written plainly, or nearly so, beside the same with a space at the line's end, which isn't
//! plain.
use crate::changes::{BYTES, changed};
use mk_record_compare::same_message;
use mk_record_read::{Arrival, RecordFault, Saved, read_record};
use std::alloc::{AllocError, Global};

const BEGINNING: &[u8] = b"mosaikrun 2
run [3,100,2000000]
sim [\"A-0\",\"time-based\",3,0,[]]
model [0,\"Count\",[\"out\"],false]
entity [0,\"0\",[]]
";

const LINES: [&[u8]; 4] = [
    b"got [0,[1,3,1]]",
    b"got [0,[1,3,{\"0\":{\"out\":12}}]]",
    b"ask [0,1,0,3]",
    b"ask [0,1000000,10000,1000000]",
];

// The record with this line, and with this behind it.
fn record_of(alloc: Global, line: &[u8], behind: &[u8]) -> Result<Vec<u8>, AllocError> {
    let mut out = Vec::new(alloc);
    out.extend_from_slice(BEGINNING)?;
    out.extend_from_slice(line)?;
    out.extend_from_slice(behind)?;
    Ok(out)
}

fn are_arrivals_same(one: &[Arrival], other: &[Arrival]) -> bool {
    match (one, other) {
        ([], []) => true,
        ([one], [other]) => one.sim == other.sim && same_message(&one.message, &other.message),
        _ => false,
    }
}

fn say_same(one: &Saved, other: &Saved) -> bool {
    let same_asks = match (&one.asks, &other.asks) {
        (Some(asks), Some(others)) => asks.as_slice() == others.as_slice(),
        (None, None) => true,
        _ => false,
    };
    same_asks && are_arrivals_same(one.arrivals.as_slice(), other.arrivals.as_slice())
}

fn is_same(one: Result<Saved, RecordFault>, other: Result<Saved, RecordFault>) -> bool {
    match (one, other) {
        (Ok(one), Ok(other)) => say_same(&one, &other),
        (Err(RecordFault::Line(line, fault)), Err(RecordFault::Line(place, number))) => {
            line == place && fault == number
        }
        _ => false,
    }
}

// Whether a record with this line is read as one in which a space stands at the line's end.
fn agrees(alloc: Global, line: &[u8]) -> bool {
    match (
        record_of(alloc, line, b"\nend 1\n"),
        record_of(alloc, line, b" \nend 1\n"),
    ) {
        (Ok(plain), Ok(other)) => is_same(
            read_record(alloc, plain.as_slice()),
            read_record(alloc, other.as_slice()),
        ),
        _ => false,
    }
}

fn agrees_changed(alloc: Global, line: &[u8], place: usize, byte: Option<u8>) -> bool {
    match changed(alloc, line, place, byte) {
        Ok(other) => agrees(alloc, other.as_slice()),
        Err(_) => false,
    }
}

fn agrees_at(alloc: Global, line: &[u8], place: usize) -> bool {
    for byte in &BYTES {
        if !agrees_changed(alloc, line, place, Some(*byte)) {
            return false;
        }
    }
    agrees_changed(alloc, line, place, None)
}

// From the fifth byte on, which is behind the line's word and the space.
fn agrees_nearby(alloc: Global, line: &[u8]) -> bool {
    for place in 4..line.len() {
        if !agrees_at(alloc, line, place) {
            return false;
        }
    }
    agrees(alloc, line)
}

// How many lines are read both ways the same, and so are they with any one byte changed or left out; up to the first
// that isn't.
fn count_agreeing(alloc: Global) -> usize {
    for (place, line) in LINES.iter().enumerate() {
        if !agrees_nearby(alloc, line) {
            return place;
        }
    }
    LINES.len()
}

#[test]
fn plain_lines_are_read_as_any_line_is(rt: HostRuntime) {
    assert_eq!(rt; count_agreeing(rt.alloc()), LINES.len());
}
