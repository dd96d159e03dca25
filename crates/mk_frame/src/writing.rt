//! Payloads written as frames.
ghost use Rattle.std.specs.Prelude.{◌≡◌, ◌<◌, ◌≤◌, ◌++◌, length, Err, OnOk, OnErr};
ghost use Rattle.mk_frame.specs.Frames.{frame_of, limit};

use crate::header::{HEADER, LIMIT};
use byteorder::{BigEndian, ByteOrder};
use thiserror::Error;

/// Why a frame was not written. `TooLong` has the payload's length in bytes.
#[derive(Debug, Drop, Error)]
pub enum PutFault {
    #[error("the payload is too long")]
    TooLong(usize),
    #[error("out of memory")]
    Mem,
}

/// Appends the payload's frame: its length as a big-endian number of four bytes, and the payload,
/// which has at most 67,108,864 bytes. After a fault `out` is as before.
pub fn put_frame(out: &mut Vec<u8>, payload: &[u8]) -> Result<(), PutFault>
    ensures ok { OnOk result (out.new.items ≡ out.old.items ++ frame_of payload.now) }
    ensures allowed { OnOk result (length payload.now ≤ limit) }
    ensures too_long { (n : _) → result ≡ Err (PutFault.TooLong n) → (n ≡ length payload.now) }
    ensures too_long_only { (n : _) → result ≡ Err (PutFault.TooLong n) → limit < n }
    ensures memory_only { result ≡ Err PutFault.Mem → length payload.now ≤ limit }
    ensures err { OnErr result (out.new.items ≡ out.old.items) }
{
    if payload.len() > LIMIT {
        return Err(PutFault::TooLong(payload.len()));
    }
    let mut header = [0u8; HEADER];
    BigEndian::write_u32(&mut header, payload.len() as u32);
    if out.reserve(HEADER + payload.len()).is_err() {
        return Err(PutFault::Mem);
    }
    if out.extend_from_slice(&header).is_err() {
        return Err(PutFault::Mem);
    }
    if out.extend_from_slice(payload).is_err() {
        return Err(PutFault::Mem);
    }
    Ok(())
}
