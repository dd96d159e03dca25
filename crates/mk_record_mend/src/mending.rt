//! The `end` line of a record that was cut short.
ghost use Rattle.std.specs.Prelude.{◌≡◌, OnOk, Some, if◌then◌else◌, length, position};
ghost use Rattle.std.specs.List.{filter, slice_split};
ghost use Rattle.mk_record_read.specs.Reading.{is_feed, is_space, word_of};
ghost use Rattle.mk_record_mend.specs.Mended.{ends_in_entry, is_entry, mended};
ghost use Rattle.mk_record_mend.specs.inner.Feeds.{IsLastFeed};

use mk_base::{Mem, put, put_unsigned};

/// Gives a record the `end` line that it lacks, where its last whole line says that a step was asked for or that a
/// message came: what stands after that line gives way to it. Other bytes are left as they are.
pub fn mend(bytes: &mut Vec<u8>) -> Result<(), Mem>
    ensures { OnOk result (bytes.new.items ≡ mended bytes.old.items) }
{
    match last_feed(bytes.as_slice()) {
        Some(end) => mend_at(bytes, end),
        None => Ok(()),
    }
}

// Mends a text whose last line feed stands here.
fn mend_at(bytes: &mut Vec<u8>, end: usize) -> Result<(), Mem>
    requires { IsLastFeed bytes.old.items (Some end) }
    ensures { OnOk result (bytes.new.items ≡ mended bytes.old.items) }
{
    let lines = &bytes.as_slice()[..end];
    if !is_entry(last_line(lines)) {
        return Ok(());
    }
    let count = entries_in(lines);
    bytes.truncate(end + 1);
    put(bytes, "end ")?;
    put_unsigned(bytes, count as u64)?;
    put(bytes, "\n")?;
    Ok(())
}

// Where the last line feed stands; none where there is no line feed.
fn last_feed(bytes: &[u8]) -> Option<usize>
    ensures { IsLastFeed bytes.now result }
{
    let mut end = bytes.len();
    while end > 0 {
        end -= 1;
        if bytes[end] == b'\n' {
            return Some(end);
        }
    }
    None
}

// The last of these lines, between which line feeds stand.
fn last_line(lines: &[u8]) -> &[u8]
    ensures { ends_in_entry (slice_split is_feed lines.now) ≡ is_entry result.now }
{
    match last_feed(lines) {
        Some(end) => &lines[end + 1..],
        None => lines,
    }
}

// How many of these lines are entries.
fn entries_in(lines: &[u8]) -> usize
    ensures { result ≡ length (filter is_entry (slice_split is_feed lines.now)) }
{
    let mut rest = lines;
    let mut count = 0;
    while let Some(end) = last_feed(rest) {
        count += entries_of(&rest[end + 1..]);
        rest = &rest[..end];
    }
    count + entries_of(rest)
}

// How many entries a line is.
fn entries_of(line: &[u8]) -> usize
    ensures { result ≡ (if is_entry line.now then 1 else 0) }
{
    if is_entry(line) { 1 } else { 0 }
}

// Whether a line says that a step was asked for, or that a message came.
fn is_entry(line: &[u8]) -> bool
    ensures { result ≡ is_entry line.now }
{
    let word = word_of(line);
    word == b"ask".as_slice() || word == b"got".as_slice()
}

// The first word of a line.
fn word_of(line: &[u8]) -> &[u8]
    ensures { result.now ≡ word_of line.now }
{
    match space_in(line) {
        Some(end) => &line[..end],
        None => line,
    }
}

// Where the first space of a line stands.
fn space_in(line: &[u8]) -> Option<usize>
    ensures { result ≡ position is_space line.now }
{
    line.iter().position(|byte| *byte == b' ')
}
