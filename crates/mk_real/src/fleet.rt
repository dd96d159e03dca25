//! Links to simulators over sockets on this machine.
ghost use Rattle.std.specs.Prelude.{◌≡◌, ◌≢◌, ◌<◌, ◌≤◌, [], IfOk, length};
ghost use Rattle.mk_base.specs.Links.{without};
ghost use Rattle.mk_outside.specs.Counts.{HasRisen};
ghost use Rattle.mk_outside.specs.Fleets.{IsWritten, ReadAs, StartedAs, last_moment};

use crate::desk::{Desk, mark, socket_at};
use crate::door::{AwaitedAt, connect, open_door};
use crate::errors::is_want_of_memory;
use crate::socket::{Side, Socket, spawn};
use crate::ticks::Ticks;
use mio::net::TcpListener;
use mk_base::{LinkNo, List, Text};
use mk_outside::{Fleet, Listened, Now, Paced, ReadLink, Slept, Start, Started, Waited, WriteLink};
use std::alloc::Global;
use std::io::{ErrorKind, Stderr};
use std::net::Net;
use std::process::{OpenProcess, Processes};
use std::time::{Clock, Duration};
use std::{io, thread};

// How long a child has to connect, and a port to answer, in seconds.
const PATIENCE: u64 = 60;

// What a fleet opens links with. What children print goes to the output, and each child and each port has so long to
// connect.
#[derive(Drop)]
struct Host<R> {
    rt: R,
    alloc: Global,
    output: Stderr,
    patience: Duration,
}

/// Links over sockets, to child programs and to ports on this machine, with the machine's clock. It opens nothing until
/// a call needs it, tells no log, and counts in its faults the calls that answer `Failed`, and the closings that fail.
#[derive(Drop)]
pub struct MioFleet<R: Net + Processes + Clock> {
    host: Host<R>,
    door: Option<TcpListener>,
    desk: Option<Desk>,
    // By the links' numbers; none where the link is closed.
    sockets: Vec<Option<Socket<R::Started>>>,
    links: Vec<LinkNo>,
    ticks: Ticks,
    faults: u64,
}

impl<'a> MioFleet<&'a HostRuntime> {
    /// A fleet without links. A child has 60 seconds to connect, and a port to answer.
    pub fn new(alloc: Global, rt: &'a HostRuntime) -> MioFleet<&'a HostRuntime>
        ensures faults { result.faults ≡ 0 }
        ensures started { result.sockets.items ≡ [] }
        ensures links { result.links.items ≡ [] }
    {
        MioFleet::with_patience(alloc, rt, Duration::from_secs(PATIENCE))
    }

    /// A fleet without links. A child has so long to connect, and a port to answer.
    pub fn with_patience(
        alloc: Global,
        rt: &'a HostRuntime,
        patience: Duration,
    ) -> MioFleet<&'a HostRuntime>
        ensures faults { result.faults ≡ 0 }
        ensures started { result.sockets.items ≡ [] }
        ensures links { result.links.items ≡ [] }
        ensures patience { result.host.patience ≡ patience }
    {
        MioFleet {
            host: Host {
                rt,
                alloc,
                output: rt.stderr(),
                patience,
            },
            door: None,
            desk: None,
            sockets: Vec::new(alloc),
            links: Vec::new(alloc),
            ticks: Ticks::new(),
            faults: 0,
        }
    }
}

// Starts a child, which is awaited at the door. It waits for nobody.
fn start_child<R: Net + Processes + Clock>(
    host: &Host<R>,
    door: Option<TcpListener>,
    words: &List<Text>,
    number: usize,
) -> io::Result<Socket<R::Started>> {
    let Some(door) = door else {
        return Err(io::Error::from(ErrorKind::NotConnected));
    };
    let awaited = AwaitedAt::new(&host.rt, door, host.patience)?;
    let child = spawn(&host.rt, host.alloc, words.as_slice(), host.output)?;
    Ok(Socket::new(number, Side::Awaited(awaited), Some(child)))
}

// The socket of a new link, which has this number.
fn begin<R: Net + Processes + Clock>(
    host: &Host<R>,
    door: &mut Option<TcpListener>,
    start: &Start,
    number: usize,
) -> io::Result<Socket<R::Started>> {
    match start {
        Start::Command(words) => start_child(host, door.take(), words, number),
        Start::Connect(port) => {
            let stream = connect(&host.rt, host.alloc, *port, host.patience)?;
            Ok(Socket::new(number, Side::Stream(stream), None))
        }
    }
}

// Makes what all links share, if it isn't there yet.
fn set_desk<R: Net>(host: &Host<R>, desk: &mut Option<Desk>) -> io::Result<()> {
    if desk.is_none() {
        *desk = Some(Desk::new(&host.rt, host.alloc)?);
    }
    Ok(())
}

// Waits for the children that were started, before a port is connected to: one of them may listen
// there.
fn await_children<R: Clock, P: OpenProcess + Drop>(
    rt: &R,
    desk: &mut Option<Desk>,
    sockets: &mut [Option<Socket<P>>],
    start: &Start,
) -> io::Result<()> {
    let Some(desk) = desk else {
        return Ok(());
    };
    match start {
        Start::Command(_) => Ok(()),
        Start::Connect(_) => desk.await_children(rt, sockets),
    }
}

// Has the system tell of a new link's changes.
fn register<P: OpenProcess + Drop>(desk: &Option<Desk>, socket: &mut Socket<P>) -> io::Result<()> {
    match desk {
        Some(desk) => socket.register(desk.registry()),
        None => Err(io::Error::from(ErrorKind::NotFound)),
    }
}

// Opens the link of this number.
fn open<R: Net + Processes + Clock>(
    host: &Host<R>,
    door: &mut Option<TcpListener>,
    desk: &mut Option<Desk>,
    start: &Start,
    number: usize,
) -> io::Result<Socket<R::Started>> {
    set_desk(host, desk)?;
    let mut socket = begin(host, door, start, number)?;
    match register(desk, &mut socket) {
        Ok(()) => Ok(socket),
        Err(e) => {
            socket.give_up();
            Err(e)
        }
    }
}

// Reads on a link.
fn read_on<R: Clock, P: OpenProcess + Drop>(
    rt: &R,
    desk: &mut Option<Desk>,
    sockets: &mut [Option<Socket<P>>],
    link: LinkNo,
    into: &mut [u8],
) -> ReadLink
    requires { into.old ≢ [] }
    ensures { ReadAs result into.old into.new }
{
    let Some(desk) = desk else {
        return ReadLink::Failed;
    };
    match socket_at(sockets, link.0 as usize) {
        Some(socket) => desk.read(rt, socket, into),
        None => ReadLink::Failed,
    }
}

// Writes on a link.
fn write_on<R: Clock, P: OpenProcess + Drop>(
    rt: &R,
    desk: &Option<Desk>,
    sockets: &mut [Option<Socket<P>>],
    link: LinkNo,
    bytes: &[u8],
) -> WriteLink
    requires { bytes.now ≢ [] }
    ensures { IsWritten result bytes.now }
{
    let Some(desk) = desk else {
        return WriteLink::Failed;
    };
    match socket_at(sockets, link.0 as usize) {
        Some(socket) => socket.write(rt, desk.registry(), bytes),
        None => WriteLink::Failed,
    }
}

// Waits until one of these links is ready, and gives its place.
fn find_ready<R: Clock, P: OpenProcess + Drop>(
    rt: &R,
    desk: &mut Option<Desk>,
    sockets: &mut [Option<Socket<P>>],
    links: &[LinkNo],
) -> io::Result<usize>
    ensures { IfOk result (λ place. place < length links.now) }
{
    match desk {
        Some(desk) => desk.find_ready(rt, sockets, links),
        None => Err(io::Error::from(ErrorKind::NotFound)),
    }
}

// Has each socket take in the changes that the system tells by now, and gives the clock's time.
fn moment<R: Clock, P: OpenProcess + Drop>(
    rt: &R,
    desk: &mut Option<Desk>,
    sockets: &mut [Option<Socket<P>>],
    ticks: &mut Ticks,
) -> io::Result<u64>
    ensures rising { IfOk result (λ n. ticks.old.last ≤ n) }
    ensures last { IfOk result (λ n. ticks.new.last ≡ n) }
    ensures kept { ticks.old.last ≤ ticks.new.last }
    ensures range { IfOk result (λ n. n ≤ last_moment) }
{
    if let Some(desk) = desk {
        desk.look(sockets)?;
    }
    ticks.passed(rt)
}

// Closes a link, if it is open, and waits until its child has ended.
fn close_on<P: OpenProcess + Drop>(
    sockets: &mut [Option<Socket<P>>],
    link: LinkNo,
) -> io::Result<()> {
    let Some(socket) = sockets.get_mut(link.0 as usize) else {
        return Ok(());
    };
    match socket.take() {
        Some(socket) => socket.close(),
        None => Ok(()),
    }
}

impl<R: Net + Processes + Clock> MioFleet<R> {
    // Counts one more error of the system.
    fn count_fault(&mut self)
        ensures risen { HasRisen self.old.faults self.new.faults }
        ensures count { self.old.faults ≤ self.new.faults }
        ensures same_count { length self.new.sockets.items ≡ length self.old.sockets.items }
        ensures same_links { self.new.links.items ≡ self.old.links.items }
    {
        self.faults = self.faults.saturating_add(1);
    }

    // Starts a link.
    fn begin_link(&mut self, start: &Start) -> Started
        ensures count { self.old.faults ≤ self.new.faults }
        ensures cause { result ≡ Started.Failed → HasRisen self.old.faults self.new.faults }
        ensures starts { StartedAs result (length self.old.sockets.items)
            (length self.new.sockets.items) self.old.links.items self.new.links.items }
    {
        let number = self.sockets.len();
        if number >= u32::MAX as usize {
            return Started::Mem;
        }
        if self.sockets.reserve(1).is_err() || self.links.reserve(1).is_err() {
            return Started::Mem;
        }
        match open(&self.host, &mut self.door, &mut self.desk, start, number) {
            Ok(socket) => {
                let link = LinkNo(number as u32);
                self.sockets.push_reserved(Some(socket));
                self.links.push_reserved(link);
                Started::Link(link)
            }
            Err(e) => {
                if is_want_of_memory(e) {
                    return Started::Mem;
                }
                self.count_fault();
                Started::Failed
            }
        }
    }
}

impl<R: Net + Processes + Clock> Fleet for MioFleet<R> {
    ghost use Rattle.std.specs.Prelude.{None};

    ghost faults = { λ f. f.faults };

    ghost started = { λ f. length f.sockets.items };

    ghost open_links = { λ f. f.links.items };

    ghost log = { λ _. None };

    ghost asked = { λ _. None };

    fn listen(&mut self) -> Listened {
        self.door = None;
        match open_door(&self.host.rt) {
            Ok((door, port)) => {
                self.door = Some(door);
                Listened::At(port)
            }
            Err(e) => {
                if is_want_of_memory(e) {
                    return Listened::Mem;
                }
                self.count_fault();
                Listened::Failed
            }
        }
    }

    fn start(&mut self, start: &Start) -> Started {
        let sockets = self.sockets.as_mut_slice();
        if let Err(e) = await_children(&self.host.rt, &mut self.desk, sockets, start) {
            if is_want_of_memory(e) {
                return Started::Mem;
            }
            self.count_fault();
            return Started::Failed;
        }
        self.begin_link(start)
    }

    fn read(&mut self, link: LinkNo, into: &mut [u8]) -> ReadLink {
        let sockets = self.sockets.as_mut_slice();
        match read_on(&self.host.rt, &mut self.desk, sockets, link, into) {
            ReadLink::Failed => {
                self.count_fault();
                ReadLink::Failed
            }
            answer => answer,
        }
    }

    fn write(&mut self, link: LinkNo, bytes: &[u8]) -> WriteLink {
        let sockets = self.sockets.as_mut_slice();
        match write_on(&self.host.rt, &self.desk, sockets, link, bytes) {
            WriteLink::Failed => {
                self.count_fault();
                WriteLink::Failed
            }
            answer => answer,
        }
    }

    fn wait(&mut self, links: &[LinkNo], ready: &mut [bool]) -> Waited {
        let sockets = self.sockets.as_mut_slice();
        match find_ready(&self.host.rt, &mut self.desk, sockets, links) {
            Ok(first) => {
                mark(self.sockets.as_slice(), links, ready, first);
                Waited::Marked
            }
            Err(e) => {
                if is_want_of_memory(e) {
                    return Waited::Mem;
                }
                self.count_fault();
                Waited::Failed
            }
        }
    }

    fn close(&mut self, link: LinkNo) {
        leave(&mut self.links, link);
        if close_on(self.sockets.as_mut_slice(), link).is_err() {
            self.count_fault();
        }
    }
}

impl<R: Net + Processes + Clock> Paced for MioFleet<R> {
    fn now(&mut self) -> Now {
        let sockets = self.sockets.as_mut_slice();
        match moment(&self.host.rt, &mut self.desk, sockets, &mut self.ticks) {
            Ok(moment) => Now::At(moment),
            Err(_) => {
                self.count_fault();
                Now::Failed
            }
        }
    }

    fn sleep(&mut self, ms: u64) -> Slept {
        thread::sleep(&self.host.rt, Duration::from_millis(ms));
        Slept::Woke
    }
}

// Takes a link off.
fn leave(links: &mut Vec<LinkNo>, link: LinkNo)
    ensures { links.new.items ≡ without link links.old.items }
{
    links.retain(|other| other.0 != link.0);
}
