//! A call of the program, over a fleet to which no simulator connects or another one.

use mk_base::{List, Mem};
use mk_drafts::Drafts;
use mk_fakes::{MemFolder, MemSink, PlainFleet};
use mk_local::Registry;
use mk_onlooker::Nobody;
use mk_outside::{Paced, Sink};
use mk_watch_read::Rules;
use mosaikrun_program::program;
use std::alloc::Global;
use std::sync::Wait;

fn owned(alloc: Global, words: &[&str]) -> Result<Vec<String>, Mem> {
    let mut copies = Vec::new(alloc);
    for word in words {
        copies.push(String::from_str(alloc, word)?)?;
    }
    Ok(copies)
}

/// The status of the call with these words, by a program without rules of tables, over a fleet whose clock stands
/// still.
pub fn status_of<R: Wait, D: Drafts, K: Sink, E: Sink>(
    rt: &R,
    alloc: Global,
    words: &[&str],
    folder: &mut D,
    kinds: &Registry,
    out: &mut K,
    err: &mut E,
) -> Result<u8, Mem> {
    status_by_clock(rt, alloc, words, folder, 0, kinds, out, err)
}

/// The same over a fleet whose clock goes on by so many milliseconds at each look, and by those of each sleep.
pub fn status_by_clock<R: Wait, D: Drafts, K: Sink, E: Sink>(
    rt: &R,
    alloc: Global,
    words: &[&str],
    folder: &mut D,
    tick: u64,
    kinds: &Registry,
    out: &mut K,
    err: &mut E,
) -> Result<u8, Mem> {
    let mut fleet = PlainFleet::new(alloc, List::new(alloc), 1, 0, 0)?;
    fleet.set_clock(0, tick, 1000);
    status_over(rt, alloc, words, folder, &mut fleet, kinds, out, err)
}

/// The same over this fleet.
pub fn status_over<R: Wait, D: Drafts, F: Paced, K: Sink, E: Sink>(
    rt: &R,
    alloc: Global,
    words: &[&str],
    folder: &mut D,
    fleet: &mut F,
    kinds: &Registry,
    out: &mut K,
    err: &mut E,
) -> Result<u8, Mem> {
    let words = owned(alloc, words)?;
    Ok(program(
        rt,
        alloc,
        words.as_slice(),
        folder,
        fleet,
        kinds,
        &Rules::new(alloc),
        out,
        err,
        Nobody,
    ))
}

/// What comes of a call: the status, what the outputs have, and what is saved as `k`, nothing at all where it is
/// `None`.
pub struct Comes {
    pub status: u8,
    pub err: &'static str,
    pub out: &'static str,
    pub saved: Option<&'static str>,
}

impl Comes {
    /// Whether a call came to this.
    pub fn is_told(&self, status: u8, folder: &MemFolder, out: &MemSink, err: &MemSink) -> bool {
        status == self.status
            && err.bytes() == self.err.as_bytes()
            && out.bytes() == self.out.as_bytes()
            && self.is_saved(folder)
    }

    fn is_saved(&self, folder: &MemFolder) -> bool {
        match (folder.file("k"), self.saved) {
            (Some(bytes), Some(text)) => bytes == text.as_bytes(),
            (None, None) => true,
            _ => false,
        }
    }
}
