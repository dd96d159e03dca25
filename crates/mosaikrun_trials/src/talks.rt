//! What children say on their links in the whole of a run, and when it comes.

use crate::served::replies_to;
use mk_base::{List, Mem, SimNo};
use mk_fakes::Chunk;
use mk_local::Registry;
use mk_message::write_item;
use mk_plan::{Entry, Item, Journal};
use mosaikrun_samples::{STOP, When, frames_of, push_chunk, push_frame};
use std::alloc::Global;
use std::sync::Wait;

/// A simulator of one of the kinds: its table in the scenario but for how it is begun, and what is said to it before
/// the run.
pub struct Part {
    pub table: &'static str,
    pub kind: &'static str,
    pub setup: [&'static str; 3],
}

/// A reply on a link, by their numbers from 0, that comes only once this request was said on another one.
pub struct Hold {
    pub link: u32,
    pub reply: usize,
    pub on: u32,
    pub request: usize,
}

/// What is said on a link: the frames of the program, and the replies to them.
#[derive(Drop)]
pub struct Talk {
    pub requests: Vec<u8>,
    pub replies: Vec<u8>,
}

fn push_item(alloc: Global, requests: &mut Vec<u8>, item: &Item, id: u64) -> Result<(), Mem> {
    let payload = write_item(alloc, item, id)?;
    push_frame(requests, payload.as_slice())
}

// What is said in a run with this journal to a simulator that asks nothing.
fn push_items(
    alloc: Global,
    requests: &mut Vec<u8>,
    journal: &Journal,
    sim: u32,
) -> Result<(), Mem> {
    let mut id = 3u64;
    for entry in journal.entries.as_slice() {
        if let Entry::Sent(to, item) = entry {
            if *to == SimNo(sim) {
                push_item(alloc, requests, item, id)?;
                id = id.saturating_add(1);
            }
        }
    }
    Ok(())
}

// The same with the handshake and the stop.
fn requests_to(alloc: Global, part: &Part, journal: &Journal, sim: u32) -> Result<Vec<u8>, Mem> {
    let mut requests = frames_of(alloc, &part.setup)?;
    push_items(alloc, &mut requests, journal, sim)?;
    push_frame(&mut requests, STOP.as_bytes())?;
    Ok(requests)
}

fn talk_of<R: Wait>(
    rt: &R,
    alloc: Global,
    kinds: &Registry,
    part: &Part,
    journal: &Journal,
    sim: u32,
) -> Result<Talk, Mem> {
    let requests = requests_to(alloc, part, journal, sim)?;
    let replies = replies_to(rt, alloc, kinds, part.kind, requests.as_slice())?;
    Ok(Talk { requests, replies })
}

// The number of the simulator at this place, and of its link; there are few.
fn number(place: usize) -> u32 {
    place.min(1000) as u32
}

/// The talks of a run with this journal, each simulator being a child of its kind.
pub fn talks_of<R: Wait>(
    rt: &R,
    alloc: Global,
    kinds: &Registry,
    parts: &[Part],
    journal: &Journal,
) -> Result<Vec<Talk>, Mem> {
    let mut talks = Vec::new(alloc);
    for i in 0..parts.len() {
        talks.push(talk_of(rt, alloc, kinds, &parts[i], journal, number(i))?)?;
    }
    Ok(talks)
}

// How long the first frame is.
fn first_length(bytes: &[u8]) -> usize {
    match bytes {
        [a, b, c, d, ..] => u32::from_be_bytes([*a, *b, *c, *d]) as usize + 4,
        _ => bytes.len(),
    }
}

fn first_of(bytes: &[u8]) -> &[u8] {
    &bytes[..first_length(bytes).min(bytes.len())]
}

fn rest_of(bytes: &[u8]) -> &[u8] {
    &bytes[first_length(bytes).min(bytes.len())..]
}

// How many bytes the first frames have, so many and one more.
fn length_up_to(bytes: &[u8], number: usize) -> u64 {
    let mut rest = rest_of(bytes);
    for _ in 0..number {
        rest = rest_of(rest);
    }
    bytes.len().saturating_sub(rest.len()) as u64
}

// When the reply of this number comes: once its request was said, or the one for which it is held back.
fn moment(talks: &[Talk], holds: &[Hold], link: u32, reply: usize) -> When {
    let mut on = link;
    let mut request = reply;
    for hold in holds {
        if hold.link == link && hold.reply == reply {
            on = hold.on;
            request = hold.request;
        }
    }
    let after = match talks.get(on as usize) {
        Some(talk) => length_up_to(talk.requests.as_slice(), request),
        None => 0,
    };
    When { link, on, after }
}

fn push_replies(
    alloc: Global,
    chunks: &mut List<Chunk>,
    talks: &[Talk],
    holds: &[Hold],
    place: usize,
) -> Result<(), Mem> {
    let Some(talk) = talks.get(place) else {
        return Ok(());
    };
    let mut rest = talk.replies.as_slice();
    for reply in 0..rest.len() {
        if rest.is_empty() {
            return Ok(());
        }
        let when = moment(talks, holds, number(place), reply);
        push_chunk(alloc, chunks, when, first_of(rest))?;
        rest = rest_of(rest);
    }
    Ok(())
}

/// The replies on all links, each once its request was said, or the one for which it is held back.
pub fn replies_in(alloc: Global, talks: &[Talk], holds: &[Hold]) -> Result<List<Chunk>, Mem> {
    let mut chunks = List::new(alloc);
    for place in 0..talks.len() {
        push_replies(alloc, &mut chunks, talks, holds, place)?;
    }
    Ok(chunks)
}
