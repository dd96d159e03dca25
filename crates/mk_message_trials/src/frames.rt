//! Frames written, and given again for several cuttings.
use mk_base::Mem;
use mk_frame::{Feeder, Framed, put_frame};
use std::alloc::Global;

const PAYLOAD: &[u8] = b"[1,0,null]";

const FRAME: &[u8] = b"\x00\x00\x00\x0a[1,0,null]";

// What is next: 0 for nothing, 1 for the payload, 2 for another, and the length of one that is too long.
fn next_of(feeder: &mut Feeder) -> Result<u32, Mem> {
    match feeder.next()? {
        Framed::NotYet => Ok(0),
        Framed::Frame(payload) => Ok(if payload.as_slice() == PAYLOAD { 1 } else { 2 }),
        Framed::TooLong(length) => Ok(length),
    }
}

// The same once these bytes were fed.
fn fed(feeder: &mut Feeder, bytes: &[u8]) -> Result<u32, Mem> {
    feeder.feed(bytes)?;
    next_of(feeder)
}

// Whether this is next once these bytes were fed.
fn is_next(feeder: &mut Feeder, bytes: &[u8], want: u32) -> bool {
    match fed(feeder, bytes) {
        Ok(next) => next == want,
        Err(_) => false,
    }
}

// Whether the frame is given once its last byte was fed, and not before.
fn is_given_at_its_end(feeder: &mut Feeder) -> bool {
    for byte in FRAME {
        let is_last = *byte == b']';
        if !is_next(feeder, b"", 0) || !is_next(feeder, &[*byte], u32::from(is_last)) {
            return false;
        }
    }
    true
}

// What is fed, and what is next then.
const FED: [(&[u8], u32); 7] = [
    (FRAME, 1),
    (b"", 0),
    (b"\x00\x00\x00\x0a[1,0,null]\x00", 1),
    (b"", 0),
    (b"\x00\x00\x0a[1,0,null]", 1),
    (b"\x04\x00\x00\x01", 67_108_865),
    (b"", 67_108_865),
];

fn is_given_once(feeder: &mut Feeder) -> bool {
    for (bytes, given) in &FED {
        if !is_next(feeder, bytes, *given) {
            return false;
        }
    }
    true
}

fn are_given(alloc: Global) -> bool {
    let mut feeder = Feeder::new(alloc);
    is_given_at_its_end(&mut feeder) && is_given_once(&mut feeder)
}

#[test]
fn a_frame_is_given_once_however_it_is_cut(rt: HostRuntime) {
    assert!(rt; are_given(rt.alloc()));
}

fn is_written(alloc: Global) -> bool {
    let mut out = Vec::new(alloc);
    put_frame(&mut out, PAYLOAD).is_ok() && out.as_slice() == FRAME
}

#[test]
fn a_payload_is_framed(rt: HostRuntime) {
    assert!(rt; is_written(rt.alloc()));
}
