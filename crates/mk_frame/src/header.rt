//! What stands at the front of a stream: a header, and how long its frame is.
ghost use Rattle.std.specs.Prelude.{◌≡◌, ◌+◌, ◌≤◌, length, take};
ghost use Rattle.byteorder.specs.Endian.{big_bytes};
ghost use Rattle.mk_frame.specs.Frames.{limit, IsTooLong, IsUnfinished};

use byteorder::{BigEndian, ByteOrder};

// The longest payload that is allowed, in bytes.
pub const LIMIT: usize = 67_108_864;

// The bytes of a header.
pub const HEADER: usize = 4;

// What bytes begin with.
pub enum Front {
    Unfinished,
    TooLong(u32),
    Whole(usize),
}

// `Whole` has the length of the first frame's payload.
pub fn front_of(held: &[u8]) -> Front
    ensures unfinished { result ≡ Front.Unfinished → IsUnfinished held.now }
    ensures too_long { (n : _) → result ≡ Front.TooLong n → IsTooLong n held.now }
    ensures allowed { (n : _) → result ≡ Front.Whole n → n ≤ limit }
    ensures there { (n : _) → result ≡ Front.Whole n → 4 + n ≤ length held.now }
    ensures header { (n : _) → result ≡ Front.Whole n → take 4 held.now ≡ big_bytes 4 n }
{
    if held.len() < HEADER {
        return Front::Unfinished;
    }
    let length = BigEndian::read_u32(held);
    if length as usize > LIMIT {
        return Front::TooLong(length);
    }
    if held.len() - HEADER < length as usize {
        return Front::Unfinished;
    }
    Front::Whole(length as usize)
}
