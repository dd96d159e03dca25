//! What simulators say over links in memory, and when.

use mk_base::{LinkNo, List, Mem};
use mk_fakes::Chunk;
use mk_frame::put_frame;
use std::alloc::Global;

/// A request on a link and the reply to it, as payloads.
pub type Exchange = (&'static str, &'static str);

/// On which link something comes: once so many bytes, `after`, were said on the link `on`.
#[derive(Clone, Copy)]
pub struct When {
    pub link: u32,
    pub on: u32,
    pub after: u64,
}

/// On link 0, once so many bytes were said on it.
pub fn once(after: u64) -> When {
    When {
        link: 0,
        on: 0,
        after,
    }
}

/// Appends the frame of a payload. `Mem` is answered as well where the payload is too long for a frame.
pub fn push_frame(bytes: &mut Vec<u8>, payload: &[u8]) -> Result<(), Mem> {
    match put_frame(bytes, payload) {
        Ok(()) => Ok(()),
        Err(_) => Err(Mem),
    }
}

/// The frames of payloads, one behind the other.
pub fn frames_of(alloc: Global, payloads: &[&str]) -> Result<Vec<u8>, Mem> {
    let mut bytes = Vec::new(alloc);
    for payload in payloads {
        push_frame(&mut bytes, payload.as_bytes())?;
    }
    Ok(bytes)
}

/// How many bytes the frames of payloads have, each four more than its payload.
pub fn length_of(payloads: &[&str]) -> u64 {
    let mut length = 0u64;
    for payload in payloads {
        length = length.saturating_add(payload.len() as u64 + 4);
    }
    length
}

/// Appends these bytes to what comes; no bytes are the link's end.
pub fn push_chunk(
    alloc: Global,
    chunks: &mut List<Chunk>,
    when: When,
    bytes: &[u8],
) -> Result<(), Mem> {
    let bytes = Vec::from_slice(alloc, bytes)?;
    chunks.push(Chunk {
        link: LinkNo(when.link),
        on: LinkNo(when.on),
        after: when.after,
        bytes: List::from_vec(bytes),
    })
}

/// Appends the frame of a payload to what comes, in pieces of so many bytes, at least one.
pub fn push_reply(
    alloc: Global,
    chunks: &mut List<Chunk>,
    when: When,
    payload: &str,
    piece: usize,
) -> Result<(), Mem> {
    let mut bytes = Vec::new(alloc);
    push_frame(&mut bytes, payload.as_bytes())?;
    for part in bytes.as_slice().chunks(piece.max(1)) {
        push_chunk(alloc, chunks, when, part)?;
    }
    Ok(())
}

/// The frames of the requests, one behind the other.
pub fn requests_of(alloc: Global, talk: &[Exchange]) -> Result<Vec<u8>, Mem> {
    let mut said = Vec::new(alloc);
    for exchange in talk {
        push_frame(&mut said, exchange.0.as_bytes())?;
    }
    Ok(said)
}

/// How many bytes the frames of the requests have.
pub fn requests_length(talk: &[Exchange]) -> u64 {
    let mut length = 0u64;
    for exchange in talk {
        length = length.saturating_add(exchange.0.len() as u64 + 4);
    }
    length
}

/// The replies on link 0, each once its request was said, in pieces of so many bytes.
pub fn replies_of(alloc: Global, talk: &[Exchange], piece: usize) -> Result<List<Chunk>, Mem> {
    let mut chunks = List::new(alloc);
    for i in 0..talk.len() {
        let when = once(requests_length(&talk[..=i]));
        push_reply(alloc, &mut chunks, when, talk[i].1, piece)?;
    }
    Ok(chunks)
}
