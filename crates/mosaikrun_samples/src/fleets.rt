//! A fleet in memory, and what was said on its links.

use mk_base::{LinkNo, List, Mem};
use mk_fakes::{Chunk, LogEntry, MemFleet};
use mk_outside::Fleet;
use std::alloc::Global;

/// A fleet on which this comes, and which takes each write whole.
pub fn willing(alloc: Global, chunks: List<Chunk>) -> Result<MemFleet, Mem> {
    MemFleet::new(alloc, chunks, List::new(alloc), 1_000_000, 0, 4_000_000)
}

/// What was said on the link.
pub fn said_on(alloc: Global, fleet: &MemFleet, link: LinkNo) -> Result<Vec<u8>, Mem> {
    let log = fleet.log()?;
    said_in(alloc, log.as_slice(), link)
}

fn said_in(alloc: Global, log: &[LogEntry], link: LinkNo) -> Result<Vec<u8>, Mem> {
    let mut said = Vec::new(alloc);
    for entry in log {
        push_said(&mut said, entry, link)?;
    }
    Ok(said)
}

// Appends what this entry says on the link, if it does.
fn push_said(said: &mut Vec<u8>, entry: &LogEntry, link: LinkNo) -> Result<(), Mem> {
    if let LogEntry::Said(on, bytes) = entry {
        if *on == link {
            said.extend_from_slice(bytes.as_slice())?;
        }
    }
    Ok(())
}
