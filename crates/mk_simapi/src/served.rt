//! How a serving ends.

/// Why a simulator is no longer served. `Garbled` has the first test that the payload of the next frame fails, as
/// `mk_message::read` numbers them, `TooLong` the length that its header gives, and `LongReply` the length in bytes of
/// the reply that is next, which is more than a frame may have.
#[derive(Clone, Copy, Debug, PartialEq, Eq)]
pub enum Served {
    /// A stop was heard.
    Stopped,
    /// The other side has closed the link.
    Closed,
    /// The fleet has failed.
    Failed,
    Garbled(u8),
    TooLong(u32),
    LongReply(usize),
    Mem,
}
