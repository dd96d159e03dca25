//! Each call of each fake, right and failing.
ghost use Rattle.std.specs.Prelude.{◌≡◌, [], ◌∷◌, IfOk};
ghost use Rattle.mk_base.specs.Lists.{IsIn};

use crate::chunks::{ONE, chunk};
use mk_base::{LinkNo, List, Mem};
use mk_fakes::{Chunk, MemFleet, MemFolder, MemSink, PlainFleet, PlainFolder, PlainSink};
use mk_outside::{
    FileRead, FileSave, Fleet, Folder, Listened, LogEntry, Now, Paced, PutAll, ReadLink, Sink,
    Slept, Start, Started, Waited, WriteLink, Wrote, put_all,
};
use std::alloc::Global;

fn second_call(alloc: Global) -> Result<List<u64>, Mem>
    ensures { IfOk result (λ calls. calls ≡ 1 ∷ []) }
{
    let mut calls = List::new(alloc);
    calls.push(1)?;
    Ok(calls)
}

// Whether a folder answers so to a read, and gives these bytes.
fn is_file_read<F: Folder>(
    alloc: Global,
    folder: &mut F,
    name: &str,
    want: FileRead,
    bytes: &[u8],
) -> bool {
    let mut into = Vec::new(alloc);
    folder.read(name, &mut into) == want && into.as_slice() == bytes
}

fn saved<F: Folder>(folder: &mut F, name: &str, bytes: &[u8]) -> FileSave {
    folder.save(name, bytes)
}

fn is_file(folder: &MemFolder, name: &str, bytes: &[u8]) -> bool {
    folder.file(name) == Some(bytes)
}

// A folder that fails at its second call.
fn failing_folder(alloc: Global) -> Result<MemFolder, Mem> {
    let calls = second_call(alloc)?;
    Ok(MemFolder::new(alloc, calls))
}

// The same with a file.
fn folder_of_one(alloc: Global) -> Result<MemFolder, Mem> {
    let mut folder = failing_folder(alloc)?;
    folder.add("a", b"one")?;
    Ok(folder)
}

fn does_fail_to_save(alloc: Global, folder: &mut MemFolder) -> bool {
    is_file_read(alloc, folder, "a", FileRead::Whole, b"one")
        && saved(folder, "a", b"two") == FileSave::Failed
        && is_file(folder, "a", b"one")
}

fn does_save(alloc: Global, folder: &mut MemFolder) -> bool {
    saved(folder, "b", b"two") == FileSave::Kept
        && is_file(folder, "a", b"one")
        && is_file(folder, "b", b"two")
        && is_file_read(alloc, folder, "c", FileRead::Missing, b"")
}

fn is_folder_right(alloc: Global) -> bool {
    match folder_of_one(alloc) {
        Ok(mut folder) => does_fail_to_save(alloc, &mut folder) && does_save(alloc, &mut folder),
        Err(_) => false,
    }
}

#[test]
fn a_folder_reads_and_saves_and_fails_where_it_is_told_to(rt: HostRuntime) {
    assert!(rt; is_folder_right(rt.alloc()));
}

fn does_fail_to_read(alloc: Global) -> bool {
    match failing_folder(alloc) {
        Ok(mut folder) => {
            saved(&mut folder, "a", b"one") == FileSave::Kept
                && is_file_read(alloc, &mut folder, "a", FileRead::Failed, b"")
        }
        Err(_) => false,
    }
}

#[test]
fn a_folder_fails_to_read_where_it_is_told_to(rt: HostRuntime) {
    assert!(rt; does_fail_to_read(rt.alloc()));
}

fn put_whole<K: Sink>(sink: &mut K, text: &[u8]) -> PutAll {
    put_all(sink, text)
}

fn put_two(sink: &mut MemSink) -> Wrote {
    sink.put(b"two")
}

fn does_take(sink: &mut MemSink) -> bool {
    put_whole(sink, b"one") == PutAll::Done
        && put_whole(sink, b"") == PutAll::Done
        && put_whole(sink, b"two") == PutAll::Failed
        && put_two(sink) == Wrote::Took(3)
        && sink.bytes() == b"onetwo".as_slice()
}

fn is_sink_right(alloc: Global) -> bool {
    match second_call(alloc) {
        Ok(calls) => does_take(&mut MemSink::new(alloc, calls)),
        Err(_) => false,
    }
}

#[test]
fn a_sink_takes_and_fails_where_it_is_told_to(rt: HostRuntime) {
    assert!(rt; is_sink_right(rt.alloc()));
}

// A plain folder with a file.
fn plain_folder(alloc: Global) -> Result<PlainFolder, Mem> {
    let mut folder = PlainFolder::new(alloc);
    folder.add("a", b"one")?;
    Ok(folder)
}

fn is_plain_folder_right(alloc: Global) -> bool {
    match plain_folder(alloc) {
        Ok(mut folder) => {
            saved(&mut folder, "a", b"two") == FileSave::Kept
                && is_file_read(alloc, &mut folder, "a", FileRead::Whole, b"two")
                && folder.file("b").is_none()
        }
        Err(_) => false,
    }
}

#[test]
fn a_plain_folder_does_the_same_without_failing(rt: HostRuntime) {
    assert!(rt; is_plain_folder_right(rt.alloc()));
}

fn is_plain_sink_right(alloc: Global) -> bool {
    let mut sink = PlainSink::new(alloc);
    put_whole(&mut sink, b"two") == PutAll::Done && sink.bytes() == b"two".as_slice()
}

#[test]
fn a_plain_sink_does_the_same_without_failing(rt: HostRuntime) {
    assert!(rt; is_plain_sink_right(rt.alloc()));
}

fn push_chunk(
    alloc: Global,
    chunks: &mut List<Chunk>,
    after: u64,
    bytes: &[u8],
) -> Result<(), Mem> {
    let chunk = chunk(alloc, after, bytes)?;
    chunks.push(chunk)
}

// `abc` at once, `d` after two bytes said, and then the end.
fn chunks(alloc: Global) -> Result<List<Chunk>, Mem> {
    let mut chunks = List::new(alloc);
    push_chunk(alloc, &mut chunks, 0, b"abc")?;
    push_chunk(alloc, &mut chunks, 2, b"d")?;
    push_chunk(alloc, &mut chunks, 2, b"")?;
    Ok(chunks)
}

// What an entry of a log says, in a word and bytes.
fn said(entry: &LogEntry) -> (&'static str, &[u8]) {
    match entry {
        LogEntry::Heard(_, bytes) => ("heard", bytes.as_slice()),
        LogEntry::NotHeard(_) => ("nothing", b""),
        LogEntry::Said(_, bytes) => ("said", bytes.as_slice()),
        LogEntry::NotSaid(_) => ("held", b""),
        LogEntry::Ended(_) => ("ended", b""),
        LogEntry::Rest => ("rest", b""),
        LogEntry::Told(_) => ("told", b""),
        LogEntry::Nap => ("nap", b""),
    }
}

// Whether this is what a log says.
fn is_log(log: &List<LogEntry>, wanted: &[(&str, &[u8])]) -> bool {
    for (entry, want) in log.as_slice().iter().zip(wanted) {
        if said(entry) != *want {
            return false;
        }
    }
    log.len() == wanted.len()
}

// What a row asks of a fleet about a link, with the answer that it must give.
#[derive(Clone, Copy)]
enum Row {
    // a read into two bytes, and what these are then
    Read(ReadLink, &'static [u8]),
    // a read into eight bytes
    ReadMore(ReadLink),
    // a write
    Write(&'static [u8], WriteLink),
    // a wait, and whether it marks the link
    Wait(Waited, bool),
}

fn is_read<F: Fleet>(fleet: &mut F, link: LinkNo, want: ReadLink, bytes: &[u8]) -> bool
    requires { IsIn link (F.open_links fleet.old) }
    ensures { F.open_links fleet.new ≡ F.open_links fleet.old }
{
    let mut into = [0u8; 2];
    fleet.read(link, &mut into) == want && into.as_slice() == bytes
}

fn more<F: Fleet>(fleet: &mut F, link: LinkNo) -> ReadLink
    requires { IsIn link (F.open_links fleet.old) }
    ensures { F.open_links fleet.new ≡ F.open_links fleet.old }
{
    let mut into = [0u8; 8];
    fleet.read(link, &mut into)
}

fn write<F: Fleet>(fleet: &mut F, link: LinkNo, bytes: &[u8]) -> WriteLink
    requires { IsIn link (F.open_links fleet.old) }
    ensures { F.open_links fleet.new ≡ F.open_links fleet.old }
{
    if bytes.is_empty() {
        return WriteLink::Failed;
    }
    fleet.write(link, bytes)
}

fn is_marked<F: Fleet>(fleet: &mut F, link: LinkNo, want: Waited, mark: bool) -> bool
    requires { IsIn link (F.open_links fleet.old) }
    ensures { F.open_links fleet.new ≡ F.open_links fleet.old }
{
    let mut ready = [false];
    fleet.wait(&[link], &mut ready) == want && ready[0] == mark
}

// Asks for what the row says, and tells whether the answer is its own.
fn is_so<F: Fleet>(fleet: &mut F, link: LinkNo, row: Row) -> bool
    requires { IsIn link (F.open_links fleet.old) }
    ensures { F.open_links fleet.new ≡ F.open_links fleet.old }
{
    match row {
        Row::Read(want, bytes) => is_read(fleet, link, want, bytes),
        Row::ReadMore(want) => more(fleet, link) == want,
        Row::Write(bytes, want) => write(fleet, link, bytes) == want,
        Row::Wait(want, mark) => is_marked(fleet, link, want, mark),
    }
}

// How many rows come true, up to the first that doesn't.
fn count_so<F: Fleet>(fleet: &mut F, link: LinkNo, rows: &[Row]) -> usize
    requires { IsIn link (F.open_links fleet.old) }
    ensures { IsIn link (F.open_links fleet.new) }
{
    for (place, row) in rows.iter().enumerate() {
        if !is_so(fleet, link, *row) {
            return place;
        }
    }
    rows.len()
}

// The same of the first link that a fleet starts, which is closed then; 1000 where it starts another.
fn count_on_first<F: Fleet>(fleet: &mut F, rows: &[Row]) -> usize {
    match fleet.start(&Start::Connect(1)) {
        Started::Link(link) if link == ONE => {
            let count = count_so(fleet, link, rows);
            fleet.close(link);
            count
        }
        _ => 1000,
    }
}

fn listened(fleet: &mut MemFleet) -> Listened {
    fleet.listen()
}

const LOG: [(&str, &[u8]); 10] = [
    ("heard", b"ab"),
    ("heard", b"c"),
    ("nothing", b""),
    ("said", b"xy"),
    ("held", b""),
    ("rest", b""),
    ("said", b"z"),
    ("heard", b"d"),
    ("ended", b""),
    ("ended", b""),
];

fn is_log_of(fleet: &MemFleet, wanted: &[(&str, &[u8])]) -> bool {
    match fleet.log() {
        Ok(log) => is_log(&log, wanted),
        Err(_) => false,
    }
}

const GIVING: [Row; 11] = [
    Row::Read(ReadLink::Got(2), b"ab"),
    Row::Read(ReadLink::Got(1), b"c\0"),
    Row::Read(ReadLink::NotYet, b"\0\0"),
    Row::Wait(Waited::Failed, false),
    Row::Write(b"xyz", WriteLink::Put(2)),
    Row::Write(b"z", WriteLink::NotYet),
    Row::Wait(Waited::Marked, true),
    Row::Write(b"z", WriteLink::Put(1)),
    Row::Read(ReadLink::Got(1), b"d\0"),
    Row::Read(ReadLink::Closed, b"\0\0"),
    Row::Read(ReadLink::Closed, b"\0\0"),
];

// A fleet that takes two bytes at a time, and none at each second write.
fn giving(alloc: Global) -> Result<MemFleet, Mem> {
    let chunks = chunks(alloc)?;
    MemFleet::new(alloc, chunks, List::new(alloc), 2, 2, 1000)
}

fn is_giving_right(alloc: Global) -> bool {
    match giving(alloc) {
        Ok(mut fleet) => {
            listened(&mut fleet) == Listened::At(5000)
                && count_on_first(&mut fleet, &GIVING) == GIVING.len()
                && is_log_of(&fleet, &LOG)
        }
        Err(_) => false,
    }
}

#[test]
fn a_fleet_gives_its_chunks_and_tells_its_log(rt: HostRuntime) {
    assert!(rt; is_giving_right(rt.alloc()));
}

const FAILING: [Row; 4] = [
    Row::ReadMore(ReadLink::Failed),
    Row::ReadMore(ReadLink::Got(3)),
    Row::ReadMore(ReadLink::NotYet),
    Row::Write(b"z", WriteLink::Failed),
];

// A fleet that fails at its second call, and whose log is soon full.
fn failing(alloc: Global) -> Result<MemFleet, Mem> {
    let calls = second_call(alloc)?;
    let chunks = chunks(alloc)?;
    MemFleet::new(alloc, chunks, calls, 9, 0, 32)
}

fn count_failing(alloc: Global) -> usize {
    match failing(alloc) {
        Ok(mut fleet) => count_on_first(&mut fleet, &FAILING),
        Err(_) => 1000,
    }
}

#[test]
fn a_fleet_fails_where_it_is_told_to_and_where_its_log_is_full(rt: HostRuntime) {
    assert_eq!(rt; count_failing(rt.alloc()), FAILING.len());
}

const PLAIN: [Row; 3] = [
    Row::ReadMore(ReadLink::NotYet),
    Row::Wait(Waited::Marked, true),
    Row::ReadMore(ReadLink::Closed),
];

fn is_plain_log(fleet: &PlainFleet) -> bool {
    match fleet.log() {
        Ok(log) => is_log(&log, &[("nothing", b"".as_slice())]),
        Err(_) => false,
    }
}

fn is_plain_fleet_right(alloc: Global) -> bool {
    match PlainFleet::new(alloc, List::new(alloc), 9, 0, 16) {
        Ok(mut fleet) => {
            count_on_first(&mut fleet, &PLAIN) == PLAIN.len() && is_plain_log(&fleet)
        }
        Err(_) => false,
    }
}

#[test]
fn a_plain_fleet_goes_on(rt: HostRuntime) {
    assert!(rt; is_plain_fleet_right(rt.alloc()));
}

fn told<F: Paced>(fleet: &mut F) -> Now {
    fleet.now()
}

fn slept<F: Paced>(fleet: &mut F) -> Slept {
    fleet.sleep(5)
}

// A fleet without chunks.
fn idle(alloc: Global) -> Result<MemFleet, Mem> {
    MemFleet::new(alloc, List::new(alloc), List::new(alloc), 9, 0, 1000)
}

// The same at the time 10; each sleep takes 7 more, and the second fails.
fn clocked(alloc: Global) -> Result<MemFleet, Mem> {
    let mut fleet = MemFleet::new(alloc, List::new(alloc), List::new(alloc), 9, 0, 1000)?;
    fleet.set_clock(10, 7, 1);
    Ok(fleet)
}

// Whether these are the time that a fleet tells and what a sleep then comes to.
fn is_time<F: Paced>(fleet: &mut F, now: u64, sleep: Slept) -> bool {
    told(fleet) == Now::At(now) && slept(fleet) == sleep
}

fn does_stand(alloc: Global) -> bool {
    match idle(alloc) {
        Ok(mut fleet) => is_time(&mut fleet, 0, Slept::Failed),
        Err(_) => false,
    }
}

fn does_go(alloc: Global) -> bool {
    match clocked(alloc) {
        Ok(mut fleet) => {
            is_time(&mut fleet, 10, Slept::Woke) && is_time(&mut fleet, 22, Slept::Failed)
        }
        Err(_) => false,
    }
}

#[test]
fn a_clock_stands_until_it_is_set_and_goes_as_it_is_set(rt: HostRuntime) {
    assert!(rt; does_stand(rt.alloc()) && does_go(rt.alloc()));
}

// The time that a fleet with an open link tells.
fn told_beside<F: Paced>(fleet: &mut F, link: LinkNo) -> Now
    requires { IsIn link (F.open_links fleet.old) }
    ensures { IsIn link (F.open_links fleet.new) }
{
    fleet.now()
}

// What a sleep of a fleet with an open link comes to.
fn slept_beside<F: Paced>(fleet: &mut F, link: LinkNo) -> Slept
    requires { IsIn link (F.open_links fleet.old) }
    ensures { IsIn link (F.open_links fleet.new) }
{
    fleet.sleep(5)
}

// What a sleep comes to, the time then, and what the link gives.
fn after_sleep<F: Paced>(fleet: &mut F, link: LinkNo) -> (Slept, Now, ReadLink)
    requires { IsIn link (F.open_links fleet.old) }
{
    let slept = slept_beside(fleet, link);
    let now = told_beside(fleet, link);
    (slept, now, more(fleet, link))
}

// The same of the first link that a fleet starts.
fn after_start<F: Paced>(fleet: &mut F) -> Option<(Slept, Now, ReadLink)> {
    match fleet.start(&Start::Connect(1)) {
        Started::Link(link) => Some(after_sleep(fleet, link)),
        _ => None,
    }
}

fn plain_clocked(alloc: Global) -> Result<PlainFleet, Mem> {
    let chunks = chunks(alloc)?;
    let mut fleet = PlainFleet::new(alloc, chunks, 9, 0, 1000)?;
    fleet.set_clock(1, 0, 0);
    Ok(fleet)
}

fn is_plain_clock_right(alloc: Global) -> bool {
    match plain_clocked(alloc) {
        Ok(mut fleet) => {
            after_start(&mut fleet) == Some((Slept::Woke, Now::At(6), ReadLink::Closed))
        }
        Err(_) => false,
    }
}

#[test]
fn a_plain_clock_goes_as_it_is_set(rt: HostRuntime) {
    assert!(rt; is_plain_clock_right(rt.alloc()));
}
