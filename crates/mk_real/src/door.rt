//! How a connection comes to be: by a listening socket for one child, or by connecting to a port.
use mio::event::Source;
use mio::net::{TcpListener, TcpStream};
use mio::{Events, Interest, Poll, Registry, Token};
use std::alloc::Global;
use std::io;
use std::io::ErrorKind;
use std::net::{Ipv4Addr, Net, SocketAddr, SocketAddrV4};
use std::time::{Clock, Duration, Instant};

// An address on this machine.
fn address(port: u16) -> SocketAddr {
    SocketAddr::V4(SocketAddrV4::new(Ipv4Addr::new(127, 0, 0, 1), port))
}

// What is left of so long a time since a start, or that it is over.
fn time_left<R: Clock>(rt: &R, start: &Instant, patience: Duration) -> io::Result<Duration> {
    match patience.checked_sub(start.elapsed(rt)?) {
        Some(left) => Ok(left),
        None => Err(io::Error::from(ErrorKind::TimedOut)),
    }
}

// A set of one socket, whose changes the system tells.
#[derive(Drop)]
struct Watch {
    poll: Poll,
    events: Events,
}

impl Watch {
    // Has the system tell of these changes of a socket.
    fn new<R: Net, S: Source>(
        rt: &R,
        alloc: Global,
        socket: &mut S,
        changes: Interest,
    ) -> io::Result<Watch> {
        let poll = Poll::new(rt)?;
        poll.registry().register(socket, Token(0), changes)?;
        let events = Events::with_capacity(alloc, 1)?;
        Ok(Watch { poll, events })
    }
}

// Whether the socket at the other side has answered. It is an error where it has refused.
fn has_answered(stream: &TcpStream) -> io::Result<bool> {
    match stream.take_error()? {
        Some(e) => Err(e),
        None => Ok(stream.peer_addr().is_ok()),
    }
}

// Waits until the socket at the other side has answered, within so long a time.
fn await_answer<R: Clock>(
    rt: &R,
    watch: &mut Watch,
    stream: &TcpStream,
    patience: Duration,
) -> io::Result<()> {
    let start = Instant::now(rt)?;
    for _ in 0..u64::MAX {
        if has_answered(stream)? {
            return Ok(());
        }
        let left = time_left(rt, &start, patience)?;
        watch.poll.poll(&mut watch.events, Some(left))?;
    }
    Err(io::Error::from(ErrorKind::TimedOut))
}

// Waits until the socket at the other side has answered, by a set of its own.
fn await_peer<R: Net + Clock>(
    rt: &R,
    alloc: Global,
    stream: &mut TcpStream,
    patience: Duration,
) -> io::Result<()> {
    let mut watch = Watch::new(rt, alloc, stream, Interest::WRITABLE)?;
    await_answer(rt, &mut watch, stream, patience)?;
    watch.poll.registry().deregister(stream)
}

/// Connects to a port on this machine, within so long a time.
pub fn connect<R: Net + Clock>(
    rt: &R,
    alloc: Global,
    port: u16,
    patience: Duration,
) -> io::Result<TcpStream> {
    let mut stream = TcpStream::connect(rt, address(port))?;
    await_peer(rt, alloc, &mut stream, patience)?;
    stream.set_nodelay(true)?;
    Ok(stream)
}

/// Listens at a port of this machine that was free, and gives the port.
pub fn open_door<R: Net>(rt: &R) -> io::Result<(TcpListener, u16)> {
    let door = TcpListener::bind(rt, address(0))?;
    let port = door.local_addr()?.port();
    Ok((door, port))
}

// The connection that has come, if one has.
fn take_connection(door: &TcpListener) -> io::Result<Option<TcpStream>> {
    for _ in 0..u64::MAX {
        match door.accept() {
            Ok((stream, _)) => return Ok(Some(stream)),
            Err(e) => match e.kind() {
                ErrorKind::WouldBlock => return Ok(None),
                ErrorKind::Interrupted | ErrorKind::ConnectionAborted => {}
                _ => return Err(e),
            },
        }
    }
    Ok(None)
}

/// A door at which a child is awaited, for so long a time since its start.
#[derive(Drop)]
pub struct AwaitedAt {
    door: TcpListener,
    start: Instant,
    patience: Duration,
}

impl AwaitedAt {
    /// A child that is started now is awaited at this door.
    pub fn new<R: Clock>(rt: &R, door: TcpListener, patience: Duration) -> io::Result<AwaitedAt> {
        let start = Instant::now(rt)?;
        Ok(AwaitedAt {
            door,
            start,
            patience,
        })
    }

    /// Has the system tell when somebody connects, under this number.
    pub fn register(&mut self, registry: &Registry, number: usize) -> io::Result<()> {
        registry.register(&mut self.door, Token(number), Interest::READABLE)
    }

    /// The first that has connected, if one has. It waits for nobody.
    pub fn admit(&self) -> io::Result<Option<TcpStream>> {
        let Some(stream) = take_connection(&self.door)? else {
            return Ok(None);
        };
        stream.set_nodelay(true)?;
        Ok(Some(stream))
    }

    /// Whether its time is over, or can't be told.
    pub fn is_late<R: Clock>(&self, rt: &R) -> bool {
        time_left(rt, &self.start, self.patience).is_err()
    }
}
