//! The line that is written of an ending.
ghost use Rattle.std.specs.Prelude.{◌≡◌, [], ◌++◌, IfOk, OnOk, flat_map, ◌∷◌, codes};
ghost use Rattle.std.specs.Fmt.{decimal, signed_decimal};
ghost use Rattle.mosaikrun_endings.specs.Endings.{line_of, text_of, unbroken};

use crate::ending::Ending;
use crate::launch::put_launch;
use crate::links::put_link;
use crate::scenario::put_scenario;
use crate::setup::put_setup;
use crate::watches::put_watches;
use mk_base::{List, Text};
use std::alloc::{AllocError, Global};

impl Ending {
    /// The line, with its line feed, that is written to the error output. Line feeds and carriage returns within it are
    /// written as spaces, so it is one line. `AllocError` is want of memory.
    pub fn line(&self, alloc: Global) -> Result<Vec<u8>, AllocError>
        ensures { IfOk result (λ line. line.items ≡ line_of self.now) }
    {
        let mut text = Vec::new(alloc);
        self.put_text(alloc, &mut text)?;
        let mut line = Vec::from_slice(alloc, b"mosaikrun: ")?;
        for byte in text.as_slice() {
            line.push(unbroken(*byte))?;
        }
        line.push(b'\n')?;
        Ok(line)
    }

    // Puts into an empty text what is said of it.
    fn put_text(&self, alloc: Global, out: &mut Vec<u8>) -> Result<(), AllocError>
        requires { out.old.items ≡ [] }
        ensures { OnOk result (out.new.items ≡ text_of self.now) }
    {
        match self {
            Ending::Usage => put(
                out,
                "usage: run SCENARIO [--record FILE] or replay RECORD [--order N] or check SCENARIO or demo N or migrate OLD NEW or resume SCENARIO RECORD [--record FILE] or watch RECORD SPEC or blame FIRST SECOND or paced SCENARIO FACTOR [--strict MS] [--record FILE]",
            ),
            Ending::Missing { name } => put_missing(out, name),
            Ending::TooLong { name, count } => put_too_long(alloc, out, name, *count),
            Ending::Scenario(fault) => put_scenario(alloc, out, fault),
            Ending::Watches(fault) => put_watches(out, fault),
            Ending::Cycle { sims } => put_cycle(out, sims),
            Ending::Launch { sim, fault } => put_launch(alloc, out, sim, fault),
            Ending::Setup(setup) => put_setup(alloc, out, setup),
            Ending::Record { line, fault } => put_record(alloc, out, *line, *fault),
            Ending::Wrong { sim, place, cause } => put_wrong(alloc, out, sim, *place, *cause),
            Ending::Failed { sim, text } => put_failed(out, sim, text),
            Ending::LoopLimit { sim, time } => put_loop_limit(alloc, out, sim, *time),
            Ending::Link { sim, fault } => put_link(alloc, out, sim, *fault),
            Ending::Short { outstanding } => put_count(
                alloc,
                out,
                "run 8: record ends with ",
                *outstanding,
                " outstanding",
            ),
            Ending::Differs { entry } => {
                put_count(alloc, out, "run 9: record entry ", *entry, " differs")
            }
            Ending::OtherPlan { part } => put_count(
                alloc,
                out,
                "run 10: record of another plan (",
                u32::from(*part),
                ")",
            ),
            Ending::OtherMessage { sim, place } => put_other_message(alloc, out, sim, *place),
            Ending::Late {
                sim,
                time,
                late,
                allowed,
            } => put_late(alloc, out, sim, *time, *late, *allowed),
            Ending::Fleet => put(out, "outside: fleet"),
            Ending::Folder => put(out, "outside: folder"),
            Ending::Output => put(out, "outside: output"),
            Ending::Entries { entries } => put_count(alloc, out, "limit: ", *entries, " entries"),
            Ending::LongItem { sim, length } => put_long_item(alloc, out, sim, *length),
            Ending::Mem => put(out, "out of memory"),
        }
    }
}

// Puts into an empty text a number between these words.
fn put_count(
    alloc: Global,
    out: &mut Vec<u8>,
    before: &str,
    count: u32,
    after: &str,
) -> Result<(), AllocError>
    requires { out.old.items ≡ [] }
    ensures { OnOk result (out.new.items ≡ before.now ++ decimal count ++ after.now) }
{
    put(out, before)?;
    put_number(alloc, out, count as u64)?;
    put(out, after)
}

// Puts into an empty text that there is no file of this name.
fn put_missing(out: &mut Vec<u8>, name: &Text) -> Result<(), AllocError>
    requires { out.old.items ≡ [] }
    ensures { OnOk result (out.new.items ≡ name.now ++ codes ": no such file") }
{
    put(out, name.as_str())?;
    put(out, ": no such file")
}

// Puts into an empty text that a file has this many bytes, more than a file may have.
fn put_too_long(alloc: Global, out: &mut Vec<u8>, name: &Text, count: u64) -> Result<(), AllocError>
    requires { out.old.items ≡ [] }
    ensures { OnOk result (out.new.items ≡ name.now ++ codes ": " ++ decimal count
        ++ codes " bytes, limit 536870912") }
{
    put(out, name.as_str())?;
    put(out, ": ")?;
    put_number(alloc, out, count)?;
    put(out, " bytes, limit 536870912")
}

// Puts into an empty text what is said of a record's faulty line.
fn put_record(alloc: Global, out: &mut Vec<u8>, line: u64, fault: u8) -> Result<(), AllocError>
    requires { out.old.items ≡ [] }
    ensures { OnOk result (out.new.items ≡ codes "record: line " ++ decimal line ++ codes " fault "
        ++ decimal fault) }
{
    put(out, "record: line ")?;
    put_number(alloc, out, line)?;
    put(out, " fault ")?;
    put_number(alloc, out, fault as u64)
}

// Puts into an empty text what is said of a failure reply with this text.
fn put_failed(out: &mut Vec<u8>, sim: &Text, text: &Text) -> Result<(), AllocError>
    requires { out.old.items ≡ [] }
    ensures { OnOk result (out.new.items ≡ codes "run 2: " ++ sim.now ++ codes " failed: "
        ++ text.now) }
{
    put(out, "run 2: ")?;
    put(out, sim.as_str())?;
    put(out, " failed: ")?;
    put(out, text.as_str())
}

// Puts into an empty text what is said of a simulator that is triggered beyond the loop limit.
fn put_loop_limit(alloc: Global, out: &mut Vec<u8>, sim: &Text, time: i64) -> Result<(), AllocError>
    requires { out.old.items ≡ [] }
    ensures { OnOk result (out.new.items ≡ codes "run 3: " ++ sim.now ++ codes " loop limit at "
        ++ signed_decimal time) }
{
    put(out, "run 3: ")?;
    put(out, sim.as_str())?;
    put(out, " loop limit at ")?;
    put(out, time.to_string(alloc)?.as_str())
}

// Puts into an empty text what is said of a message with this many bytes, more than one may have.
fn put_long_item(
    alloc: Global,
    out: &mut Vec<u8>,
    sim: &Text,
    length: u64,
) -> Result<(), AllocError>
    requires { out.old.items ≡ [] }
    ensures { OnOk result (out.new.items ≡ codes "limit: " ++ sim.now ++ codes " message of "
        ++ decimal length ++ codes " bytes") }
{
    put(out, "limit: ")?;
    put(out, sim.as_str())?;
    put(out, " message of ")?;
    put_number(alloc, out, length)?;
    put(out, " bytes")
}

// Puts into an empty text what is said of simulators that lead in a circle.
fn put_cycle(out: &mut Vec<u8>, sims: &List<Text>) -> Result<(), AllocError>
    requires { out.old.items ≡ [] }
    ensures { OnOk result (out.new.items ≡ codes "connect 8: cycle"
        ++ flat_map (λ id. 32 ∷ id) sims.now) }
{
    put(out, "connect 8: cycle")?;
    for sim in sims.as_slice() {
        put(out, " ")?;
        put(out, sim.as_str())?;
    }
    Ok(())
}

// Puts into an empty text what is said of a wrong message.
fn put_wrong(
    alloc: Global,
    out: &mut Vec<u8>,
    sim: &Text,
    place: u64,
    cause: u8,
) -> Result<(), AllocError>
    requires { out.old.items ≡ [] }
    ensures { OnOk result (out.new.items ≡ codes "run 1: " ++ sim.now ++ codes " message "
        ++ decimal place ++ codes " cause " ++ decimal cause) }
{
    put(out, "run 1: ")?;
    put(out, sim.as_str())?;
    put(out, " message ")?;
    put_number(alloc, out, place)?;
    put(out, " cause ")?;
    put_number(alloc, out, cause as u64)
}

// Puts into an empty text what is said of a message that isn't the record's.
fn put_other_message(
    alloc: Global,
    out: &mut Vec<u8>,
    sim: &Text,
    place: u64,
) -> Result<(), AllocError>
    requires { out.old.items ≡ [] }
    ensures { OnOk result (out.new.items ≡ codes "run 11: " ++ sim.now ++ codes " message "
        ++ decimal place ++ codes " differs") }
{
    put(out, "run 11: ")?;
    put(out, sim.as_str())?;
    put(out, " message ")?;
    put_number(alloc, out, place)?;
    put(out, " differs")
}

// Puts into an empty text what is said of a step that is too late.
fn put_late(
    alloc: Global,
    out: &mut Vec<u8>,
    sim: &Text,
    time: i64,
    late: u64,
    allowed: u64,
) -> Result<(), AllocError>
    requires { out.old.items ≡ [] }
    ensures { OnOk result (out.new.items ≡ codes "run 12: " ++ sim.now ++ codes " step at "
        ++ signed_decimal time ++ codes " late by " ++ decimal late ++ codes " ms, allowed "
        ++ decimal allowed) }
{
    put(out, "run 12: ")?;
    put(out, sim.as_str())?;
    put(out, " step at ")?;
    put(out, time.to_string(alloc)?.as_str())?;
    put(out, " late by ")?;
    put_number(alloc, out, late)?;
    put(out, " ms, allowed ")?;
    put_number(alloc, out, allowed)
}

// Puts into an empty text these words, and a text behind them.
pub fn put_after(out: &mut Vec<u8>, words: &str, text: &Text) -> Result<(), AllocError>
    requires { out.old.items ≡ [] }
    ensures { OnOk result (out.new.items ≡ words.now ++ text.now) }
{
    put(out, words)?;
    put(out, text.as_str())
}

// Puts into an empty text two texts, each behind its words.
pub fn put_two(
    out: &mut Vec<u8>,
    words: &str,
    text: &Text,
    more: &str,
    other: &Text,
) -> Result<(), AllocError>
    requires { out.old.items ≡ [] }
    ensures { OnOk result (out.new.items ≡ words.now ++ text.now ++ more.now ++ other.now) }
{
    put(out, words)?;
    put(out, text.as_str())?;
    put(out, more)?;
    put(out, other.as_str())
}

// Puts a text.
pub fn put(out: &mut Vec<u8>, text: &str) -> Result<(), AllocError>
    ensures { OnOk result (out.new.items ≡ out.old.items ++ text.now) }
{
    out.extend_from_slice(text.as_bytes())
}

// Puts a number in decimal digits.
pub fn put_number(alloc: Global, out: &mut Vec<u8>, n: u64) -> Result<(), AllocError>
    ensures { OnOk result (out.new.items ≡ out.old.items ++ decimal n) }
{
    put(out, n.to_string(alloc)?.as_str())
}

// A line feed or carriage return as a space.
fn unbroken(byte: u8) -> u8
    ensures { result ≡ unbroken byte }
{
    if byte == b'\n' || byte == b'\r' {
        b' '
    } else {
        byte
    }
}
