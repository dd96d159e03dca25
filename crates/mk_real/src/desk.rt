//! What all links share: the system's set of sockets, and a buffer.
ghost use Rattle.std.specs.Prelude.{◌≡◌, ◌≢◌, ◌<◌, ◌≤◌, [], true, IfOk, IfSome, length};
ghost use Rattle.mk_base.specs.Lists.{IsIn};
ghost use Rattle.mk_outside.specs.Fleets.{ReadAs};

use crate::socket::Socket;
use mio::event::Event;
use mio::{Events, Poll, Registry};
use mk_base::LinkNo;
use mk_outside::{ReadLink, put_front};
use std::alloc::Global;
use std::io;
use std::io::ErrorKind;
use std::net::Net;
use std::process::OpenProcess;
use std::time::{Clock, Duration};

// How many bytes one read may give.
const BUFFER: usize = 16_384;

// How many changes one wait may tell. The others are told by the next one.
const CHANGES: usize = 256;

// After how long a wait looks again at the children that are awaited, in milliseconds.
const GLANCE: u64 = 100;

/// The set of sockets whose changes the system tells, and where a read's bytes go first, since no clause says what the
/// system leaves of a buffer.
#[derive(Drop)]
pub struct Desk {
    poll: Poll,
    events: Events,
    buffer: Box<[u8; BUFFER]>,
}

impl Desk {
    pub fn new<R: Net>(rt: &R, alloc: Global) -> io::Result<Desk> {
        let buffer = Box::new(alloc, [0u8; BUFFER])?;
        let events = Events::with_capacity(alloc, CHANGES)?;
        let poll = Poll::new(rt)?;
        Ok(Desk {
            poll,
            events,
            buffer,
        })
    }

    /// Where sockets are registered whose changes the system is to tell.
    pub fn registry(&self) -> &Registry {
        self.poll.registry()
    }

    /// Reads from a socket into the front of a buffer.
    pub fn read<R: Clock, P: OpenProcess + Drop>(
        &mut self,
        rt: &R,
        socket: &mut Socket<P>,
        into: &mut [u8],
    ) -> ReadLink
        requires { into.old ≢ [] }
        ensures { ReadAs result into.old into.new }
    {
        let most = BUFFER.min(into.len());
        let buffer: &mut [u8] = &mut *self.buffer;
        let answer = socket.read(rt, self.poll.registry(), &mut buffer[..most]);
        if let ReadLink::Got(count) = answer {
            put_front(into, &buffer[..count]);
        }
        answer
    }

    /// Waits until one of these links is ready, and gives its place.
    pub fn find_ready<R: Clock, P: OpenProcess + Drop>(
        &mut self,
        rt: &R,
        sockets: &mut [Option<Socket<P>>],
        links: &[LinkNo],
    ) -> io::Result<usize>
        ensures { IfOk result (λ place. place < length links.now) }
    {
        for _ in 0..u64::MAX {
            if let Some(place) = first_ready(sockets, links) {
                return Ok(place);
            }
            self.sleep(rt, sockets, links)?;
        }
        Err(io::Error::from(ErrorKind::TimedOut))
    }

    /// Waits until no child is awaited any more. It is an error where one is late, or has failed.
    pub fn await_children<R: Clock, P: OpenProcess + Drop>(
        &mut self,
        rt: &R,
        sockets: &mut [Option<Socket<P>>],
    ) -> io::Result<()> {
        for _ in 0..u64::MAX {
            if !take_in_all(rt, self.poll.registry(), sockets)? {
                return Ok(());
            }
            self.take_changes(sockets, Some(Duration::from_millis(GLANCE)))?;
        }
        Err(io::Error::from(ErrorKind::TimedOut))
    }

    // Sleeps until the system tells of a change. It tells none where a child that is awaited is
    // late or has failed, so while there is one this wakes now and then and looks.
    fn sleep<R: Clock, P: OpenProcess + Drop>(
        &mut self,
        rt: &R,
        sockets: &mut [Option<Socket<P>>],
        links: &[LinkNo],
    ) -> io::Result<()> {
        if is_one_awaited(sockets, links) {
            self.take_changes(sockets, Some(Duration::from_millis(GLANCE)))?;
            notice_all(rt, sockets, links);
            Ok(())
        } else {
            self.take_changes(sockets, None)
        }
    }

    /// Has each socket take in the changes that the system tells by now.
    pub fn look<P: OpenProcess + Drop>(
        &mut self,
        sockets: &mut [Option<Socket<P>>],
    ) -> io::Result<()> {
        match self.take_changes(sockets, Some(Duration::ZERO)) {
            // a signal came meanwhile; what wasn't told is told by the next look
            Err(e) if e.kind() == ErrorKind::Interrupted => Ok(()),
            answer => answer,
        }
    }

    // Waits until the system tells of changes, at most so long where that is given, and has each
    // socket take in its own.
    fn take_changes<P: OpenProcess + Drop>(
        &mut self,
        sockets: &mut [Option<Socket<P>>],
        most: Option<Duration>,
    ) -> io::Result<()> {
        self.poll.poll(&mut self.events, most)?;
        for event in &self.events {
            take_change(sockets, event);
        }
        Ok(())
    }
}

// Has the socket that an event speaks of take it in.
fn take_change<P: OpenProcess + Drop>(sockets: &mut [Option<Socket<P>>], event: &Event) {
    if let Some(socket) = socket_at(sockets, event.token().0) {
        socket.note(event);
    }
}

/// The open socket of the link of this number.
pub fn socket_at<P: OpenProcess + Drop>(
    sockets: &mut [Option<Socket<P>>],
    number: usize,
) -> Option<&mut Socket<P>> {
    match sockets.get_mut(number) {
        Some(Some(socket)) => Some(socket),
        _ => None,
    }
}

// Whether the link of this number is ready.
fn is_ready<P: OpenProcess + Drop>(sockets: &[Option<Socket<P>>], link: LinkNo) -> bool {
    match sockets.get(link.0 as usize) {
        Some(Some(socket)) => socket.is_ready(),
        _ => false,
    }
}

// Whether the child of one of these links has still to connect.
fn is_one_awaited<P: OpenProcess + Drop>(sockets: &[Option<Socket<P>>], links: &[LinkNo]) -> bool {
    for link in links {
        if let Some(Some(socket)) = sockets.get(link.0 as usize) {
            if socket.is_awaited() {
                return true;
            }
        }
    }
    false
}

// Makes those of these links ready whose child is awaited and is late, or has failed.
fn notice_all<R: Clock, P: OpenProcess + Drop>(
    rt: &R,
    sockets: &mut [Option<Socket<P>>],
    links: &[LinkNo],
) {
    for link in links {
        if let Some(socket) = socket_at(sockets, link.0 as usize) {
            socket.notice(rt);
        }
    }
}

// Takes in the children that have connected, and tells whether one is awaited still.
fn take_in_all<R: Clock, P: OpenProcess + Drop>(
    rt: &R,
    registry: &Registry,
    sockets: &mut [Option<Socket<P>>],
) -> io::Result<bool> {
    let mut awaits = false;
    for number in 0..sockets.len() {
        if let Some(socket) = socket_at(sockets, number) {
            socket.take_in(rt, registry)?;
            awaits = awaits || socket.is_awaited();
        }
    }
    Ok(awaits)
}

// The place of the first link that is ready.
fn first_ready<P: OpenProcess + Drop>(
    sockets: &[Option<Socket<P>>],
    links: &[LinkNo],
) -> Option<usize>
    ensures { IfSome result (λ place. place < length links.now) }
{
    for (place, link) in links.iter().enumerate() {
        if is_ready(sockets, *link) {
            return Some(place);
        }
    }
    None
}

/// Marks each link that is ready, and the one at this place, which was found to be.
pub fn mark<P: OpenProcess + Drop>(
    sockets: &[Option<Socket<P>>],
    links: &[LinkNo],
    ready: &mut [bool],
    first: usize,
)
    requires found { first < length ready.old }
    requires places { length ready.old ≡ length links.now }
    ensures { IsIn true ready.new }
{
    for (place, link) in links.iter().enumerate() {
        ready[place] = is_ready(sockets, *link);
    }
    ready[first] = true;
}
