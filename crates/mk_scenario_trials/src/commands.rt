//! Words on the command line, and what they ask for.

use mk_base::{Mem, Text};
use mosaikrun_words::{FileCommand, PairCommand, Request, read_words};
use std::alloc::Global;

// A request: its command, its names, and its number, which is -1 where there is none. Of a run that goes on the number
// is the length of the third name.
type Parts<'a> = (&'a str, &'a str, &'a str, i64);

fn parts(request: &Request) -> Parts<'_> {
    match request {
        Request::Run { scenario, record } => ("run", scenario.as_str(), name_in(record), -1),
        Request::Resume {
            scenario,
            record,
            save,
        } => (
            "resume",
            scenario.as_str(),
            record.as_str(),
            name_in(save).len() as i64,
        ),
        Request::Paced {
            scenario,
            factor,
            strict,
            record,
        } => (
            "paced",
            scenario.as_str(),
            name_in(record),
            pace_number(*factor, *strict),
        ),
        Request::Demo { size } => ("demo", "", "", i64::from(*size)),
        Request::Files(command) => file_parts(command),
    }
}

// A pace as one number: the factor, in billions where it is strict, and then by how much a Step may be late.
fn pace_number(factor: u32, strict: Option<u32>) -> i64 {
    match strict {
        Some(ms) => i64::from(factor) * 1_000_000_000 + i64::from(ms),
        None => i64::from(factor),
    }
}

fn file_parts(command: &FileCommand) -> Parts<'_> {
    match command {
        FileCommand::Replay { record, order } => match order {
            Some(order) => ("replay", record.as_str(), "", i64::from(*order)),
            None => ("replay", record.as_str(), "", -1),
        },
        FileCommand::Check { scenario } => ("check", scenario.as_str(), "", -1),
        FileCommand::Pair {
            command,
            first,
            second,
        } => (pair_word(*command), first.as_str(), second.as_str(), -1),
    }
}

fn pair_word(command: PairCommand) -> &'static str {
    match command {
        PairCommand::Migrate => "migrate",
        PairCommand::Watch => "watch",
        PairCommand::Blame => "blame",
    }
}

fn name_in(name: &Option<Text>) -> &str {
    match name {
        Some(name) => name.as_str(),
        None => "",
    }
}

fn told(request: &Option<Request>) -> Parts<'_> {
    match request {
        Some(request) => parts(request),
        None => ("none", "", "", -1),
    }
}

// A line, and what its words ask for: a command, names and a number; `none` where they ask for nothing.
type Line = (&'static str, &'static str, &'static str, &'static str, i64);

fn is_read(alloc: Global, words: &[String], line: &Line) -> bool {
    match read_words(alloc, words) {
        Ok(request) => told(&request) == (line.1, line.2, line.3, line.4),
        Err(_) => false,
    }
}

fn words_of(alloc: Global, line: &str) -> Result<Vec<String>, Mem> {
    let mut words = Vec::new(alloc);
    for word in line.split(' ') {
        words.push(word.to_string(alloc)?)?;
    }
    Ok(words)
}

fn is_asked(alloc: Global, line: &Line) -> bool {
    match words_of(alloc, line.0) {
        Ok(words) => is_read(alloc, words.as_slice(), line),
        Err(_) => false,
    }
}

const LINES: [Line; 37] = [
    ("run a", "run", "a", "", -1),
    ("run --record=r a", "run", "a", "r", -1),
    ("run --record r a", "run", "a", "r", -1),
    ("run demo --record r", "run", "demo", "r", -1),
    ("run resume --record a=b", "run", "resume", "a=b", -1),
    ("replay a", "replay", "a", "", -1),
    ("replay --order=7 a", "replay", "a", "", 7),
    ("replay a --order 4294967295", "replay", "a", "", 4294967295),
    ("replay a --order=0000000001", "replay", "a", "", 1),
    ("check a", "check", "a", "", -1),
    ("migrate a 86400000", "migrate", "a", "86400000", -1),
    ("watch a b", "watch", "a", "b", -1),
    ("blame b a", "blame", "b", "a", -1),
    ("resume a b", "resume", "a", "b", 0),
    ("resume a b --record r", "resume", "a", "b", 1),
    ("resume a --record rr b", "resume", "a", "b", 2),
    ("resume --record r a b", "resume", "a", "b", 1),
    ("resume --record=rr a b", "resume", "a", "b", 2),
    ("resume a --record=r b", "resume", "a", "b", 1),
    ("paced a 1000", "paced", "a", "", 1000),
    ("paced a 0000000001 --record r", "paced", "a", "r", 1),
    (
        "paced --strict 0 a --record=r 1",
        "paced",
        "a",
        "r",
        1_000_000_000,
    ),
    (
        "paced --record r a --strict=86400000 86400000",
        "paced",
        "a",
        "r",
        86_400_000_086_400_000,
    ),
    ("paced a 5 --strict 7", "paced", "a", "", 5_000_000_007),
    ("demo 0000000100", "demo", "", "", 100),
    ("paced a", "none", "", "", -1),
    ("paced a 0", "none", "", "", -1),
    ("paced a 86400001", "none", "", "", -1),
    ("paced a 00000000001", "none", "", "", -1),
    ("paced a b", "none", "", "", -1),
    ("paced a 5 6", "none", "", "", -1),
    ("paced a 5 --strict", "none", "", "", -1),
    ("paced a 5 --strict 86400001", "none", "", "", -1),
    ("paced a 5 --strict 1 --strict=1", "none", "", "", -1),
    ("paced a 5 --strict --record r", "none", "", "", -1),
    ("paced a 5 --order 1", "none", "", "", -1),
    ("resume a b --strict 1", "none", "", "", -1),
];

// How many lines ask for what they are to ask for, up to the first that doesn't.
fn count_lines(alloc: Global) -> usize {
    for (place, line) in LINES.iter().enumerate() {
        if !is_asked(alloc, line) {
            return place;
        }
    }
    LINES.len()
}

#[test]
fn words_are_one_request_or_none(rt: HostRuntime) {
    assert_eq!(rt; count_lines(rt.alloc()), LINES.len());
}
