//! The socket of a link, and the child program at its other side, awaited until it has connected.
ghost use Rattle.std.specs.Prelude.{◌≡◌, ◌≢◌, ◌≤◌, ◌<◌, ℕ, [], length};
ghost use Rattle.mk_outside.specs.Fleets.{IsWritten};

use crate::door::AwaitedAt;
use mio::event::Event;
use mio::net::TcpStream;
use mio::{Interest, Registry, Token};
use mk_base::Text;
use mk_outside::{ReadLink, WriteLink};
use std::alloc::Global;
use std::io;
use std::io::{ErrorKind, Read, Stderr, Write};
use std::process::{Child, Command, OpenProcess, Processes, Stdio};
use std::time::Clock;

/// What a link has at this side: a door at which its child is awaited, or the stream.
#[derive(Drop)]
pub enum Side {
    Awaited(AwaitedAt),
    Stream(TcpStream),
}

/// A link's socket. The system tells of a change once, so what it told is kept until a call has found that it is over.
#[derive(Drop)]
pub struct Socket<P: OpenProcess> {
    // The link's number, under which the system tells of changes.
    number: usize,
    side: Side,
    child: Option<Child<P>>,
    // A read has found nothing, or nobody has connected, and no change was told since.
    silent: bool,
    // A write has found no room, or nobody to write to, and no change was told since.
    full: bool,
    // There is room again, and nothing was written since.
    freed: bool,
}

// Has the system tell of a stream's changes, under this number.
fn register(registry: &Registry, stream: &mut TcpStream, number: usize) -> io::Result<()> {
    let both = Interest::READABLE | Interest::WRITABLE;
    registry.register(stream, Token(number), both)
}

// Reads what is there, and tells whether that was nothing. Whoever has broken the connection off
// has closed it.
fn hear(stream: &mut TcpStream, silent: &mut bool, into: &mut [u8]) -> ReadLink
    requires { 0 < length into.old }
    ensures { (n : ℕ) → result ≡ ReadLink.Got n → (0 < n) × (n ≤ length into.new) }
{
    match stream.read(into) {
        Ok(0) => ReadLink::Closed,
        Ok(n) => ReadLink::Got(n),
        Err(e) => match e.kind() {
            ErrorKind::WouldBlock => {
                *silent = true;
                ReadLink::NotYet
            }
            ErrorKind::Interrupted => ReadLink::NotYet,
            ErrorKind::ConnectionReset | ErrorKind::BrokenPipe => ReadLink::Closed,
            _ => ReadLink::Failed,
        },
    }
}

// What came of a write where the system gave this error. Where the connection was broken off
// nothing is taken, and the next read tells so.
fn refused(kind: ErrorKind, full: &mut bool, freed: &mut bool) -> WriteLink
    ensures { (n : ℕ) → result ≢ WriteLink.Put n }
{
    match kind {
        ErrorKind::WouldBlock => {
            *full = true;
            WriteLink::NotYet
        }
        ErrorKind::Interrupted | ErrorKind::ConnectionReset | ErrorKind::BrokenPipe => {
            *freed = true;
            WriteLink::NotYet
        }
        _ => WriteLink::Failed,
    }
}

// Whether a child has ended by a failure. One that has ended well may have started a program that
// connects in its place.
fn has_failed<P: OpenProcess + Drop>(child: &mut Option<Child<P>>) -> bool {
    let Some(child) = child else {
        return false;
    };
    match child.try_wait() {
        Ok(Some(status)) => !status.success(),
        Ok(None) | Err(_) => false,
    }
}

impl<P: OpenProcess + Drop> Socket<P> {
    /// The socket of the link of this number.
    pub fn new(number: usize, side: Side, child: Option<Child<P>>) -> Socket<P> {
        Socket {
            number,
            side,
            child,
            silent: false,
            full: false,
            freed: false,
        }
    }

    /// Has the system tell of changes.
    pub fn register(&mut self, registry: &Registry) -> io::Result<()> {
        match &mut self.side {
            Side::Awaited(awaited) => awaited.register(registry, self.number),
            Side::Stream(stream) => register(registry, stream, self.number),
        }
    }

    /// Takes in a change that the system told.
    pub fn note(&mut self, event: &Event) {
        if event.is_readable() || event.is_read_closed() || event.is_error() {
            self.silent = false;
        }
        if event.is_writable() || event.is_write_closed() || event.is_error() {
            self.freed = self.freed || self.full;
            self.full = false;
        }
    }

    /// Whether a read may find something, or a write that found no room may find some.
    pub fn is_ready(&self) -> bool {
        !self.silent || self.freed
    }

    /// Whether its child has still to connect.
    pub fn is_awaited(&self) -> bool {
        match &self.side {
            Side::Awaited(_) => true,
            Side::Stream(_) => false,
        }
    }

    // Whether a child is awaited that is late, or has failed.
    fn is_over<R: Clock>(&mut self, rt: &R) -> bool {
        match &self.side {
            Side::Awaited(awaited) => awaited.is_late(rt) || has_failed(&mut self.child),
            Side::Stream(_) => false,
        }
    }

    /// Makes the link ready where the child that is awaited is late, or has failed: the next read
    /// tells so.
    pub fn notice<R: Clock>(&mut self, rt: &R) {
        if self.is_over(rt) {
            self.silent = false;
        }
    }

    // Puts the stream of a child that has connected in the door's place. Nothing is known of what is there to read, and
    // where a write has found nobody, there is room now.
    fn open(&mut self, stream: TcpStream) {
        self.side = Side::Stream(stream);
        self.silent = false;
        self.freed = self.full;
        self.full = false;
    }

    // The stream of a child that is awaited, if it has connected. The system tells of its changes.
    fn arrival(&self, registry: &Registry) -> io::Result<Option<TcpStream>> {
        let Side::Awaited(awaited) = &self.side else {
            return Ok(None);
        };
        let Some(mut stream) = awaited.admit()? else {
            return Ok(None);
        };
        register(registry, &mut stream, self.number)?;
        Ok(Some(stream))
    }

    /// Takes in the child where one is awaited and has connected. Where it has not, the link isn't ready, or it is an
    /// error if the child is late or has failed.
    pub fn take_in<R: Clock>(&mut self, rt: &R, registry: &Registry) -> io::Result<()> {
        if !self.is_awaited() {
            return Ok(());
        }
        // what connected before it was over is taken in
        let over = self.is_over(rt);
        match self.arrival(registry)? {
            Some(stream) => self.open(stream),
            None if over => return Err(io::Error::from(ErrorKind::TimedOut)),
            None => self.silent = true,
        }
        Ok(())
    }

    /// Reads what is there; where nothing was and no change was told since, the system isn't asked again. Whoever has
    /// broken the connection off has closed it.
    pub fn read<R: Clock>(&mut self, rt: &R, registry: &Registry, into: &mut [u8]) -> ReadLink
        requires { 0 < length into.old }
        ensures { (n : ℕ) → result ≡ ReadLink.Got n → (0 < n) × (n ≤ length into.new) }
    {
        if self.take_in(rt, registry).is_err() {
            return ReadLink::Failed;
        }
        match &mut self.side {
            Side::Awaited(_) => ReadLink::NotYet,
            Side::Stream(_) if self.silent => ReadLink::NotYet,
            Side::Stream(stream) => hear(stream, &mut self.silent, into),
        }
    }

    /// Writes as much as there is room for.
    pub fn write<R: Clock>(&mut self, rt: &R, registry: &Registry, bytes: &[u8]) -> WriteLink
        requires { bytes.now ≢ [] }
        ensures { IsWritten result bytes.now }
    {
        if self.take_in(rt, registry).is_err() {
            return WriteLink::Failed;
        }
        self.full = false;
        self.freed = false;
        match &mut self.side {
            Side::Awaited(_) => {
                self.full = true;
                WriteLink::NotYet
            }
            Side::Stream(stream) => match stream.write(bytes) {
                Ok(0) => WriteLink::Failed,
                Ok(n) => WriteLink::Put(n),
                Err(e) => refused(e.kind(), &mut self.full, &mut self.freed),
            },
        }
    }

    // Whether a child is awaited that has not connected. The connection of one that has is closed.
    fn is_absent(&self) -> bool {
        match &self.side {
            Side::Awaited(awaited) => !matches!(awaited.admit(), Ok(Some(_))),
            Side::Stream(_) => false,
        }
    }

    /// Closes the connection, and waits until the child has ended. One that has not connected is
    /// ended.
    pub fn close(self) -> io::Result<()> {
        if self.is_absent() {
            self.give_up();
            return Ok(());
        }
        self.leave()
    }

    // Closes the connection, and waits until the child has ended.
    fn leave(self) -> io::Result<()> {
        let Socket { side, child, .. } = self;
        drop(side);
        match child {
            Some(mut child) => await_end(&mut child),
            None => Ok(()),
        }
    }

    /// Ends the child, and then closes the connection or the door: so one that has not connected
    /// never finds the door closed.
    pub fn give_up(self) {
        let Socket { side, child, .. } = self;
        if let Some(child) = child {
            end(child);
        }
        drop(side);
    }
}

// Waits until a child has ended.
fn await_end<P: OpenProcess + Drop>(child: &mut Child<P>) -> io::Result<()> {
    child.wait()?;
    Ok(())
}

// Ends a child, and waits until it has ended.
fn end<P: OpenProcess + Drop>(mut child: Child<P>) {
    if child.kill().is_ok() {
        let _ = child.wait();
    }
}

/// Starts a program by its words. What it prints goes to the standard error of this program, whose standard output is
/// for reports alone, and its input is empty.
pub fn spawn<R: Processes>(
    rt: &R,
    alloc: Global,
    words: &[Text],
    output: Stderr,
) -> io::Result<Child<R::Started>> {
    let [program, rest @ ..] = words else {
        return Err(io::Error::from(ErrorKind::InvalidInput));
    };
    let mut command = Command::new(alloc, text_of(program)?)?;
    let child = spawn_with(rt, &mut command, rest, output);
    drop(command);
    child
}

// Adds the words behind a program's name, and starts it.
fn spawn_with<R: Processes>(
    rt: &R,
    command: &mut Command,
    words: &[Text],
    output: Stderr,
) -> io::Result<Child<R::Started>> {
    for word in words {
        command.arg(text_of(word)?)?;
    }
    command.stdin(Stdio::null());
    command.stdout(output);
    command.spawn(rt)
}

fn text_of(word: &Text) -> io::Result<&str> {
    match std::str::from_utf8(word.bytes()) {
        Ok(text) => Ok(text),
        Err(_) => Err(io::Error::from(ErrorKind::InvalidInput)),
    }
}
