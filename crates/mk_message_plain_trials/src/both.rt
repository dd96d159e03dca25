//! The reader of plain payloads beside the one of all payloads.
use crate::changes::{BYTES, changed};
use mk_message::{Scratch, read_in};
use mk_message_plain::{Known, plain};
use mk_record_compare::same_message;
use std::alloc::Global;

const PLAIN: [&[u8]; 7] = [
    b"[1,0,null]",
    b"[1,18,0]",
    b"[1,999999999999999999,-999999999999999999]",
    b"[1,7,{}]",
    b"[1,7,{\"0\":{\"out\":12}}]",
    b"[1,120,{\"a\":{\"p\":0,\"q\":-5},\"a1\":{\"q\":100,\"r\":1,\"s\":2}}]",
    b"[1,3,{\" \":{\"!\":1,\"~\":10}}]",
];

const OTHER: [&[u8]; 17] = [
    b"",
    b"[1,0,null",
    b"[1,0,null]]",
    b"[1, 0,null]",
    b"[0,0,[\"f\",[],{}]]",
    b"[1,0,true]",
    b"[1,0,01]",
    b"[1,0,-0]",
    b"[1,0,1000000000000000000]",
    b"[1,0,{\"a\":{}}]",
    b"[1,0,{\"\":{\"b\":1}}]",
    b"[1,0,{\"a\":{\"b\":1,\"b\":2}}]",
    b"[1,0,{\"b\":{\"a\":1},\"a\":{\"a\":1}}]",
    b"[1,0,{\"a\":{\"b\":1.5}}]",
    b"[1,0,{\"a\":{\"b\":1},\"c\":{\"b\":1,\"d\":\"\"}}]",
    b"[1,0,{\"\\u0061\":{\"b\":1}}]",
    b"[1,0,{\"\xc3\xa9\":{\"b\":1}}]",
];

// What both readers keep from payload to payload.
#[derive(Drop)]
struct Rooms {
    known: Known,
    scratch: Scratch,
}

fn empty_rooms(alloc: Global) -> Rooms {
    Rooms {
        known: Known::new(alloc),
        scratch: Scratch::new(alloc),
    }
}

// Whether the reader of plain payloads says nothing of a payload, or the same as the other reader.
fn do_agree(alloc: Global, rooms: &mut Rooms, payload: &[u8]) -> bool {
    match plain(alloc, &mut rooms.known, payload) {
        Ok(Some(one)) => match read_in(alloc, &mut rooms.scratch, payload) {
            Ok(other) => same_message(&one, &other),
            Err(_) => false,
        },
        Ok(None) => true,
        Err(_) => false,
    }
}

fn is_plain(alloc: Global, rooms: &mut Rooms, payload: &[u8]) -> bool {
    match plain(alloc, &mut rooms.known, payload) {
        Ok(Some(_)) => true,
        _ => false,
    }
}

// How many of these payloads are plain.
fn count_plain(alloc: Global, payloads: &[&[u8]]) -> usize {
    let mut rooms = empty_rooms(alloc);
    let mut count: usize = 0;
    for payload in payloads {
        if is_plain(alloc, &mut rooms, payload) {
            count = count.saturating_add(1);
        }
    }
    count
}

#[test]
fn plain_payloads_are_told_from_others(rt: HostRuntime) {
    assert_eq!(rt; count_plain(rt.alloc(), &PLAIN), PLAIN.len());
    assert_eq!(rt; count_plain(rt.alloc(), &OTHER), 0);
}

fn agree_changed(
    alloc: Global,
    rooms: &mut Rooms,
    payload: &[u8],
    place: usize,
    byte: Option<u8>,
) -> bool {
    match changed(alloc, payload, place, byte) {
        Ok(other) => do_agree(alloc, rooms, other.as_slice()),
        Err(_) => false,
    }
}

fn agree_at(alloc: Global, rooms: &mut Rooms, payload: &[u8], place: usize) -> bool {
    for byte in &BYTES {
        if !agree_changed(alloc, rooms, payload, place, Some(*byte)) {
            return false;
        }
    }
    agree_changed(alloc, rooms, payload, place, None)
}

fn agree_nearby(alloc: Global, rooms: &mut Rooms, payload: &[u8]) -> bool {
    for place in 0..payload.len() {
        if !agree_at(alloc, rooms, payload, place) {
            return false;
        }
    }
    do_agree(alloc, rooms, payload)
}

// How many plain payloads are read as by the other reader, and so are they with any one byte changed or left out; up to
// the first that isn't.
fn count_agreeing(alloc: Global) -> usize {
    let mut rooms = empty_rooms(alloc);
    for (place, payload) in PLAIN.iter().enumerate() {
        if !agree_nearby(alloc, &mut rooms, payload) {
            return place;
        }
    }
    PLAIN.len()
}

#[test]
fn both_readers_say_the_same_of_what_is_nearly_plain(rt: HostRuntime) {
    assert_eq!(rt; count_agreeing(rt.alloc()), PLAIN.len());
}
