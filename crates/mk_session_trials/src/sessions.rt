//! A session over a fleet in memory, polled as a future too.
ghost use Rattle.std.specs.Prelude.{◌≡◌};
ghost use Rattle.mk_base.specs.Lists.{IsIn};

use crate::chunks::{ONE, chunk};
use futures::Future;
use futures::executor::block_on;
use futures::task::{Context, Poll};
use mk_base::{LinkNo, List, Mem, Tier};
use mk_fakes::{Chunk, PlainFleet};
use mk_message::write_item;
use mk_outside::{Fleet, Start, Started};
use mk_plan::{Item, Message};
use mk_session::{Heard, Polled, Session};
use std::alloc::{AllocGlobal, Global};
use std::random::RandomSource;
use std::sync::Wait;

const FRAME: &[u8] = b"\x00\x00\x00\x0a[1,0,null]";

// A session that is polled by itself, and waits for its link while nothing is to be had.
#[derive(Drop)]
struct Talk<'a, F: Fleet> {
    session: Session,
    link: LinkNo,
    fleet: &'a mut F,
}

impl<F: Fleet> Future for Talk<'_, F> {
    type Output = Heard;

    ghost can_poll = { λ s. (s.session.link ≡ s.link) × IsIn s.link (F.open_links s.fleet.now) };

    fn poll(&mut self, cx: &mut Context<'_>) -> Poll<Heard> {
        match self.session.poll(self.fleet) {
            Polled::Ready(heard) => Poll::Ready(heard),
            Polled::Pending => {
                let mut ready = [false];
                let _waited = self.fleet.wait(&[self.link], &mut ready);
                cx.yield_now()
            }
        }
    }
}

fn is_null(message: &Message) -> bool {
    match message {
        Message::Success { id, content } => *id == 0 && content.is_null(),
        _ => false,
    }
}

// A word for what was heard.
fn word_of(heard: &Heard) -> &'static str {
    match heard {
        Heard::Message(message) if is_null(message) => "reply",
        Heard::Closed => "closed",
        _ => "another",
    }
}

// What comes first on an open link of a fleet.
fn heard<R: Wait + RandomSource + AllocGlobal, F: Fleet>(
    rt: &R,
    fleet: &mut F,
    link: LinkNo,
) -> Result<Heard, Mem>
    requires { IsIn link (F.open_links fleet.old) }
{
    let talk = Talk {
        session: Session::new(rt.alloc(), link)?,
        link,
        fleet,
    };
    match block_on(rt, talk) {
        Ok(heard) => Ok(heard),
        Err(_) => Err(Mem),
    }
}

// A word for what comes first on the first link of a fleet.
fn word_on<R: Wait + RandomSource + AllocGlobal, F: Fleet>(rt: &R, fleet: &mut F) -> &'static str {
    match fleet.start(&Start::Connect(1)) {
        Started::Link(link) => match heard(rt, fleet, link) {
            Ok(heard) => word_of(&heard),
            Err(_) => "no memory",
        },
        _ => "no link",
    }
}

// These bytes at once, if they are some.
fn chunks(alloc: Global, bytes: &[u8]) -> Result<List<Chunk>, Mem> {
    let mut chunks = List::new(alloc);
    if !bytes.is_empty() {
        let chunk = chunk(alloc, 0, bytes)?;
        chunks.push(chunk)?;
    }
    Ok(chunks)
}

fn fleet(alloc: Global, bytes: &[u8]) -> Result<PlainFleet, Mem> {
    let chunks = chunks(alloc, bytes)?;
    PlainFleet::new(alloc, chunks, 100, 0, 1000)
}

// A word for what comes first where these bytes come.
fn word<R: Wait + RandomSource + AllocGlobal>(rt: &R, bytes: &[u8]) -> &'static str {
    match fleet(rt.alloc(), bytes) {
        Ok(mut fleet) => word_on(rt, &mut fleet),
        Err(_) => "no memory",
    }
}

#[test]
fn a_session_is_a_future(rt: HostRuntime) {
    assert!(rt; word(&rt, FRAME) == "reply" && word(&rt, b"") == "closed");
}

// The bytes of a step.
fn step(alloc: Global) -> Result<Vec<u8>, Mem> {
    let step = Item::Step {
        at: Tier { time: 0, tier: 0 },
        inputs: List::new(alloc),
        max_advance: 10,
    };
    write_item(alloc, &step, 3)
}

// How many bytes are unsent once these were queued.
fn unsent(alloc: Global, payload: &[u8]) -> Option<usize> {
    let mut session = Session::new(alloc, ONE).ok()?;
    session.queue(payload).ok()?;
    Some(session.unsent())
}

fn unsent_of_step(alloc: Global) -> Option<usize> {
    match step(alloc) {
        Ok(payload) => unsent(alloc, payload.as_slice()),
        Err(_) => None,
    }
}

#[test]
fn a_step_is_queued_behind_its_header(rt: HostRuntime) {
    assert!(rt; unsent_of_step(rt.alloc()) == Some(31));
}
