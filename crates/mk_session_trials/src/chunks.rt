//! Bytes on a link, as the fakes give them.
use mk_base::{LinkNo, List, Mem};
use mk_fakes::Chunk;
use std::alloc::Global;

pub const ONE: LinkNo = LinkNo(0);

// A chunk of link 0, once so many bytes were said on it.
pub fn chunk(alloc: Global, after: u64, bytes: &[u8]) -> Result<Chunk, Mem> {
    Ok(Chunk {
        link: ONE,
        on: ONE,
        after,
        bytes: List::from_vec(Vec::from_slice(alloc, bytes)?),
    })
}
