//! Frames taken off a stream of bytes.
ghost use Rattle.std.specs.Prelude.{◌≡◌, ℕ, ◌++◌, ◌↔◌, [], length, IfOk, OnOk, OnErr};
ghost use Rattle.mk_frame.specs.Frames.{IsTooLong, IsUnfinished};
ghost use Rattle.mk_frame.specs.Answers.{NextOf};

use crate::header::{Front, HEADER, front_of};
use mk_base::Mem;
use std::alloc::Global;
use std::marker::Model;

/// What a feeder has at its front.
#[derive(Debug, Drop)]
pub enum Framed {
    /// A frame's payload; the frame is taken off.
    Frame(Vec<u8>),
    /// The first frame isn't all there.
    NotYet,
    /// A header with this length, which is above 67,108,864 bytes; it stays.
    TooLong(u32),
}

/// Takes frames off a stream of bytes that comes in pieces. It is seen as the bytes that were fed
/// and not yet given.
#[derive(Drop)]
pub struct Feeder {
    alloc: Global,
    buffer: Vec<u8>,
    // How many of the buffer's first bytes were given.
    given: usize,
}

impl Model for Feeder {
    ghost use Rattle.std.specs.Prelude.{List, ℕ, ◌≤◌, drop, length};

    ghost Value = { List ℕ };

    ghost view = { λ a. drop a.given a.buffer.items };

    ghost invariant = { λ a. a.given ≤ length a.buffer.items };
}

impl Feeder {
    /// A feeder to which nothing was fed.
    pub fn new(alloc: Global) -> Feeder
        ensures { result ≡ [] }
    {
        Feeder {
            alloc,
            buffer: Vec::new(alloc),
            given: 0,
        }
    }

    /// Feeds the next piece of the stream.
    pub fn feed(&mut self, piece: &[u8]) -> Result<(), Mem>
        ensures ok { OnOk result (self.new ≡ self.old ++ piece.now) }
        ensures err { OnErr result (self.new ≡ self.old) }
    {
        self.buffer.extend_from_slice(piece)?;
        Ok(())
    }

    /// Takes the first frame off, if it is all there and not too long; else all bytes stay.
    pub fn next(&mut self) -> Result<Framed, Mem>
        ensures answer { IfOk result (λ framed. NextOf self.old framed self.new) }
        ensures not_yet { IfOk result (λ framed. (framed ≡ Framed.NotYet) ↔ IsUnfinished self.old) }
        ensures too_long { (n : ℕ)
            → IfOk result (λ framed. (framed ≡ Framed.TooLong n) ↔ IsTooLong n self.old) }
        ensures err { OnErr result (self.new ≡ self.old) }
    {
        let held = &self.buffer[self.given..];
        match front_of(held) {
            Front::Unfinished => Ok(Framed::NotYet),
            Front::TooLong(length) => Ok(Framed::TooLong(length)),
            Front::Whole(length) => {
                let payload = Vec::from_slice(self.alloc, &held[HEADER..HEADER + length])?;
                self.given += HEADER + length;
                self.forget();
                Ok(Framed::Frame(payload))
            }
        }
    }

    // Moves the bytes held down once what was given is more than half of the buffer, so that each
    // byte that is moved stands for one that was given since the last move.
    fn forget(&mut self)
        ensures { self.new ≡ self.old }
    {
        if self.given > self.buffer.len() / 2 {
            self.buffer.drain(..self.given);
            self.given = 0;
        }
    }
}
