//! Links to a child program and to a port, and the clock.
ghost use Rattle.std.specs.Prelude.{◌≡◌, ◌≢◌, ◌++◌, ◌∷◌, [], IfSome};
ghost use Rattle.mk_base.specs.Lists.{IsIn};

use mk_base::{LinkNo, List, Mem, Text};
use mk_outside::{Fleet, Listened, Now, Paced, ReadLink, Slept, Start, Started, Waited, WriteLink};
use mk_real::MioFleet;
use std::alloc::Global;
use std::net::{TcpListener, TcpStream};
use std::time::Duration;
use std::{fs, io};

// A child that sends back what it hears until its link ends.
const ECHO: &str = "import socket, sys
link = socket.create_connection(('127.0.0.1', int(sys.argv[1])))
piece = link.recv(100)
while piece:
    link.sendall(piece)
    piece = link.recv(100)";

// A child that connects once the file of this name is there.
const SECOND: &str = "import os, socket, sys, time
while not os.path.exists(sys.argv[2]):
    time.sleep(0.01)
link = socket.create_connection(('127.0.0.1', int(sys.argv[1])))
link.sendall(b'b')
link.recv(1)";

// A child that connects, and then makes the file of this name.
const FIRST: &str = "import socket, sys
link = socket.create_connection(('127.0.0.1', int(sys.argv[1])))
open(sys.argv[2], 'w').close()
link.sendall(b'a')
link.recv(1)";

// A child that makes the file of this name when its link has ended.
const LAST: &str = "import socket, sys
link = socket.create_connection(('127.0.0.1', int(sys.argv[1])))
if not link.recv(1):
    open(sys.argv[2], 'w').close()";

fn words_of(alloc: Global, words: &[&str]) -> Result<List<Text>, Mem> {
    let mut list = List::new(alloc);
    for word in words {
        list.push(Text::of(alloc, word)?)?;
    }
    Ok(list)
}

// The start of a Python program, which connects to this port.
fn python(alloc: Global, program: &str, port: u16, file: &str) -> Result<Start, Mem> {
    let port = format!(in alloc; "{port}")?;
    let words = ["/usr/bin/python3", "-c", program, port.as_str(), file];
    Ok(Start::Command(words_of(alloc, &words)?))
}

// The link that a start gives, that of a child behind a `listen`.
fn begin<F: Fleet>(fleet: &mut F, start: &Start) -> Option<LinkNo>
    ensures { IfSome result (λ link. F.open_links fleet.new ≡ F.open_links fleet.old ++ link ∷ []) }
{
    match fleet.start(start) {
        Started::Link(link) => Some(link),
        _ => None,
    }
}

fn is_refused<F: Fleet>(fleet: &mut F, start: &Start) -> bool {
    fleet.start(start) == Started::Failed
}

// The link of a child that connects to this port.
fn child_at<F: Fleet>(
    alloc: Global,
    fleet: &mut F,
    program: &str,
    port: u16,
    file: &str,
) -> Option<LinkNo>
    ensures { IfSome result (λ link. F.open_links fleet.new ≡ F.open_links fleet.old ++ link ∷ []) }
{
    match python(alloc, program, port, file) {
        Ok(start) => begin(fleet, &start),
        Err(_) => None,
    }
}

// The link of a child that runs this program.
fn child<F: Fleet>(alloc: Global, fleet: &mut F, program: &str, file: &str) -> Option<LinkNo>
    ensures { IfSome result (λ link. F.open_links fleet.new ≡ F.open_links fleet.old ++ link ∷ []) }
{
    match fleet.listen() {
        Listened::At(port) => child_at(alloc, fleet, program, port, file),
        _ => None,
    }
}

// What a read answers once there is something, or the link has ended.
fn hear<F: Fleet>(fleet: &mut F, link: LinkNo, into: &mut [u8]) -> ReadLink
    requires open { IsIn link (F.open_links fleet.old) }
    requires room { into.old ≢ [] }
    ensures { F.open_links fleet.new ≡ F.open_links fleet.old }
{
    for _ in 0..10_000 {
        match fleet.read(link, into) {
            ReadLink::NotYet => {
                fleet.wait(&[link], &mut [false]);
            }
            answer => return answer,
        }
    }
    ReadLink::NotYet
}

// What a write answers once something is taken.
fn say<F: Fleet>(fleet: &mut F, link: LinkNo, bytes: &[u8]) -> WriteLink
    requires open { IsIn link (F.open_links fleet.old) }
    requires some { bytes.now ≢ [] }
    ensures { F.open_links fleet.new ≡ F.open_links fleet.old }
{
    for _ in 0..10_000 {
        match fleet.write(link, bytes) {
            WriteLink::NotYet => {
                fleet.wait(&[link], &mut [false]);
            }
            answer => return answer,
        }
    }
    WriteLink::NotYet
}

// What is done with a link, and what it must answer.
#[derive(Clone, Copy)]
enum Row {
    Read(ReadLink),
    Write(&'static [u8], WriteLink),
    // a read once there is something, and the six bytes that it fills then
    Hear(ReadLink, &'static [u8]),
    // a write once something is taken
    Say(&'static [u8], WriteLink),
    // a wait, which marks the link
    Wait,
}

fn is_read<F: Fleet>(fleet: &mut F, link: LinkNo, want: ReadLink) -> bool
    requires { IsIn link (F.open_links fleet.old) }
    ensures { F.open_links fleet.new ≡ F.open_links fleet.old }
{
    fleet.read(link, &mut [0u8; 6]) == want
}

fn is_written<F: Fleet>(fleet: &mut F, link: LinkNo, bytes: &[u8], want: WriteLink) -> bool
    requires { IsIn link (F.open_links fleet.old) }
    ensures { F.open_links fleet.new ≡ F.open_links fleet.old }
{
    if bytes.is_empty() {
        return false;
    }
    fleet.write(link, bytes) == want
}

fn is_heard<F: Fleet>(fleet: &mut F, link: LinkNo, want: ReadLink, bytes: &[u8]) -> bool
    requires { IsIn link (F.open_links fleet.old) }
    ensures { F.open_links fleet.new ≡ F.open_links fleet.old }
{
    let mut into = [0u8; 6];
    hear(fleet, link, &mut into) == want && into.as_slice() == bytes
}

fn is_said<F: Fleet>(fleet: &mut F, link: LinkNo, bytes: &[u8], want: WriteLink) -> bool
    requires { IsIn link (F.open_links fleet.old) }
    ensures { F.open_links fleet.new ≡ F.open_links fleet.old }
{
    if bytes.is_empty() {
        return false;
    }
    say(fleet, link, bytes) == want
}

fn is_marked<F: Fleet>(fleet: &mut F, link: LinkNo) -> bool
    requires { IsIn link (F.open_links fleet.old) }
    ensures { F.open_links fleet.new ≡ F.open_links fleet.old }
{
    fleet.wait(&[link], &mut [false]) == Waited::Marked
}

// Does what the row says, and tells whether the link answers so.
fn is_so<F: Fleet>(fleet: &mut F, link: LinkNo, row: Row) -> bool
    requires { IsIn link (F.open_links fleet.old) }
    ensures { F.open_links fleet.new ≡ F.open_links fleet.old }
{
    match row {
        Row::Read(want) => is_read(fleet, link, want),
        Row::Write(bytes, want) => is_written(fleet, link, bytes, want),
        Row::Hear(want, bytes) => is_heard(fleet, link, want, bytes),
        Row::Say(bytes, want) => is_said(fleet, link, bytes, want),
        Row::Wait => is_marked(fleet, link),
    }
}

fn are_so<F: Fleet>(fleet: &mut F, link: LinkNo, rows: &[Row]) -> bool
    requires { IsIn link (F.open_links fleet.old) }
    ensures { F.open_links fleet.new ≡ F.open_links fleet.old }
{
    for row in rows {
        if !is_so(fleet, link, *row) {
            return false;
        }
    }
    true
}

// The same, and the link is closed then.
fn are_so_to_the_end<F: Fleet>(fleet: &mut F, link: LinkNo, rows: &[Row]) -> bool
    requires { IsIn link (F.open_links fleet.old) }
{
    let are_so = are_so(fleet, link, rows);
    fleet.close(link);
    are_so
}

// The same of the link of a child that runs this program.
fn is_child<F: Fleet>(
    alloc: Global,
    fleet: &mut F,
    program: &str,
    file: &str,
    rows: &[Row],
) -> bool {
    match child(alloc, fleet, program, file) {
        Some(link) => link.0 == 0 && are_so_to_the_end(fleet, link, rows),
        None => false,
    }
}

// Three bytes are said before the child can have connected, and heard.
const ECHOED: [Row; 4] = [
    Row::Write(b"abc", WriteLink::NotYet),
    Row::Read(ReadLink::NotYet),
    Row::Say(b"abc", WriteLink::Put(3)),
    Row::Hear(ReadLink::Got(3), b"abc\0\0\0"),
];

#[test]
fn speaks_with_a_child(rt: HostRuntime) {
    let mut fleet = MioFleet::new(rt.alloc(), &rt);
    assert!(rt; is_child(rt.alloc(), &mut fleet, ECHO, "", &ECHOED));
}

const FROM_SECOND: [Row; 1] = [Row::Hear(ReadLink::Got(1), b"b\0\0\0\0\0")];

const FROM_FIRST: [Row; 1] = [Row::Hear(ReadLink::Got(1), b"a\0\0\0\0\0")];

// Whether the second of two children is heard behind this link's.
fn is_second_heard<F: Fleet>(alloc: Global, fleet: &mut F, late: LinkNo, file: &str) -> bool
    requires { IsIn late (F.open_links fleet.old) }
{
    match child(alloc, fleet, FIRST, file) {
        Some(early) => { are_so(fleet, late, &FROM_SECOND) && are_so(fleet, early, &FROM_FIRST) }
        None => false,
    }
}

// The first link's child connects only after the second one's.
fn are_both_heard<F: Fleet>(alloc: Global, fleet: &mut F, file: &str) -> bool {
    match child(alloc, fleet, SECOND, file) {
        Some(late) => is_second_heard(alloc, fleet, late, file),
        None => false,
    }
}

// Both children end with the fleet.
#[test]
fn starts_children_side_by_side(rt: HostRuntime) {
    let file = "made-by-a-child";
    let mut fleet = MioFleet::new(rt.alloc(), &rt);
    let heard = are_both_heard(rt.alloc(), &mut fleet, file);
    assert!(rt; fs::remove_file(&rt, file).is_ok() && heard);
}

// The child has connected, which no call has found before the wait.
const CONNECTED: [Row; 2] = [Row::Read(ReadLink::NotYet), Row::Wait];

#[test]
fn waits_for_a_child_that_has_connected(rt: HostRuntime) {
    let file = "made-at-the-end";
    let mut fleet = MioFleet::new(rt.alloc(), &rt);
    let connected = is_child(rt.alloc(), &mut fleet, LAST, file, &CONNECTED);
    assert!(rt; fs::remove_file(&rt, file).is_ok() && connected);
}

fn port_of(listener: &TcpListener) -> io::Result<u16> {
    Ok(listener.local_addr()?.port())
}

// The connection that has come to a listening socket, which is closed then.
fn connection_of(listener: TcpListener) -> io::Result<TcpStream> {
    let (stream, _) = listener.accept()?;
    Ok(stream)
}

const OPEN: [Row; 1] = [Row::Read(ReadLink::NotYet)];

const ENDED: [Row; 2] = [Row::Wait, Row::Read(ReadLink::Closed)];

// Whether a link gives nothing, and then its end, where the other side is closed between.
fn does_end<F: Fleet>(fleet: &mut F, link: LinkNo, other: TcpStream) -> bool
    requires { IsIn link (F.open_links fleet.old) }
{
    let was_open = are_so(fleet, link, &OPEN);
    drop(other);
    was_open && are_so_to_the_end(fleet, link, &ENDED)
}

// The same of a link to a listening socket.
fn is_end_heard<F: Fleet>(fleet: &mut F, start: &Start, listener: TcpListener) -> bool {
    match begin(fleet, start) {
        Some(link) => match connection_of(listener) {
            Ok(other) => does_end(fleet, link, other),
            Err(_) => false,
        },
        None => false,
    }
}

// A listening socket, and how a link to it starts.
fn listening(rt: &HostRuntime) -> io::Result<(TcpListener, Start)> {
    let listener = TcpListener::bind(rt, "127.0.0.1:0")?;
    let port = port_of(&listener)?;
    Ok((listener, Start::Connect(port)))
}

// Whether the end of a link is heard, and it can't start again then.
fn is_ended<F: Fleet>(rt: &HostRuntime, fleet: &mut F) -> bool {
    match listening(rt) {
        Ok((listener, start)) => {
            is_end_heard(fleet, &start, listener) && is_refused(fleet, &start)
        }
        Err(_) => false,
    }
}

#[test]
fn hears_the_end_of_a_link(rt: HostRuntime) {
    let mut fleet = MioFleet::new(rt.alloc(), &rt);
    assert!(rt; is_ended(&rt, &mut fleet));
}

// The link fails, and its child is ended.
const FAILING: [Row; 2] = [
    Row::Hear(ReadLink::Failed, b"\0\0\0\0\0\0"),
    Row::Write(b"a", WriteLink::Failed),
];

// Whether the link of a child fails, which starts behind a `listen`.
fn is_failing<F: Fleet>(fleet: &mut F, start: &Start) -> bool {
    match begin(fleet, start) {
        Some(link) => are_so_to_the_end(fleet, link, &FAILING),
        None => false,
    }
}

fn does_listen<F: Fleet>(fleet: &mut F) -> bool {
    match fleet.listen() {
        Listened::At(_) => true,
        _ => false,
    }
}

// The same once a start without a `listen` before it has failed.
fn is_failing_later<F: Fleet>(fleet: &mut F, start: &Start) -> bool {
    is_refused(fleet, start) && does_listen(fleet) && is_failing(fleet, start)
}

// The same of a child that never connects.
fn does_fail<F: Fleet>(alloc: Global, fleet: &mut F, words: &[&str]) -> bool {
    match words_of(alloc, words) {
        Ok(words) => is_failing_later(fleet, &Start::Command(words)),
        Err(_) => false,
    }
}

#[test]
fn ends_a_child_that_is_late(rt: HostRuntime) {
    let mut fleet = MioFleet::with_patience(rt.alloc(), &rt, Duration::from_millis(20));
    assert!(rt; does_fail(rt.alloc(), &mut fleet, &["/bin/sleep", "50"]));
}

#[test]
fn hears_of_a_child_that_fails(rt: HostRuntime) {
    let mut fleet = MioFleet::new(rt.alloc(), &rt);
    assert!(rt; does_fail(rt.alloc(), &mut fleet, &["/bin/false"]));
}

fn does_tell<F: Paced>(fleet: &mut F) -> bool {
    fleet.now() == Now::At(0)
        && fleet.sleep(5) == Slept::Woke
        && matches!(fleet.now(), Now::At(5..=5_000))
}

#[test]
fn tells_the_time(rt: HostRuntime) {
    let mut fleet = MioFleet::new(rt.alloc(), &rt);
    assert!(rt; does_tell(&mut fleet));
}
