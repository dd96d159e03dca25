//! From words to a request: the crate's call.
ghost use Rattle.std.specs.Prelude.{◌≡◌, ◌↔◌, IfOk, Some, map, option_map};
ghost use Rattle.std.specs.String.{string_bytes};
ghost use Rattle.mosaikrun_words.specs.inner.Asked.{check_of, demo_of, number_given, pace_in, pace_of, paced_from, paced_of, pair_of, replay_in, replay_of, request_among, request_by, request_of, resume_from, resume_of, resume_with, run_of};
ghost use Rattle.mosaikrun_words.specs.Requests.{IsRequest};
ghost use Rattle.mosaikrun_words.specs.declared.request.Request.{Request};

use crate::arranged::{alone, one_word, only_word, two_words, word_with};
use crate::number::number_in;
use crate::reading::{Found, Two};
use crate::request::{Command, FileCommand, OptionName, PairCommand, Request};
use crate::sorted::{Sorted, few_sorted};
use mk_base::{LARGEST_DEMO, Mem, Text};
use std::alloc::Global;

// The commands, each with its word.
const COMMANDS: [(&str, Command); 9] = [
    ("run", Command::Run),
    ("replay", Command::Replay),
    ("check", Command::Check),
    ("demo", Command::Demo),
    ("migrate", Command::Pair(PairCommand::Migrate)),
    ("resume", Command::Resume),
    ("watch", Command::Pair(PairCommand::Watch)),
    ("blame", Command::Pair(PairCommand::Blame)),
    ("paced", Command::Paced),
];

/// The request that the words are; `None` where they are none. The words are those after the program's name: the
/// command, its files and numbers in order, and its options anywhere before, between or behind these, each once at
/// most, as `--NAME VALUE` or `--NAME=VALUE`. A number has 1 to 10 decimal digits.
pub fn read_words(alloc: Global, words: &[String]) -> Result<Option<Request>, Mem>
    ensures { IfOk result (λ found. (R : Request)
        → (found ≡ Some R) ↔ IsRequest (map string_bytes words.now) R) }
{
    request_of(alloc, words)
}

fn request_of(alloc: Global, words: &[String]) -> Result<Option<Request>, Mem>
    ensures { IfOk result (λ found. found ≡ request_of (map string_bytes words.now)) }
{
    match words {
        [word, rest @ ..] => request_among(alloc, &COMMANDS, word.as_str(), rest),
        [] => Ok(None),
    }
}

// The request of the first of these commands whose word it is.
fn request_among(
    alloc: Global,
    commands: &[(&str, Command)],
    word: &str,
    rest: &[String],
) -> Result<Option<Request>, Mem>
    ensures { IfOk result (λ found. found
        ≡ request_among (λ name. name.now) commands.now word.now (map string_bytes rest.now)) }
{
    for (name, command) in commands {
        if word == *name {
            return request_by(alloc, *command, rest);
        }
    }
    Ok(None)
}

// The request of a command, by the words after it.
fn request_by(alloc: Global, command: Command, rest: &[String]) -> Result<Option<Request>, Mem>
    ensures { IfOk result (λ found. found ≡ request_by command (map string_bytes rest.now)) }
{
    match command {
        Command::Run => run_of(alloc, rest),
        Command::Replay => replay_of(alloc, rest),
        Command::Check => check_of(alloc, rest),
        Command::Demo => demo_of(alloc, rest),
        Command::Resume => resume_of(alloc, rest),
        Command::Paced => paced_of(alloc, rest),
        Command::Pair(command) => pair_of(alloc, command, rest),
    }
}

fn run_of(alloc: Global, rest: &[String]) -> Result<Option<Request>, Mem>
    ensures { IfOk result (λ found. found ≡ run_of (map string_bytes rest.now)) }
{
    match one_word(alloc, OptionName::Record, rest)? {
        Some(Found { word, value }) => Ok(Some(Request::Run {
            scenario: word,
            record: value,
        })),
        None => Ok(None),
    }
}

fn resume_of(alloc: Global, rest: &[String]) -> Result<Option<Request>, Mem>
    ensures { IfOk result (λ found. found ≡ resume_of (map string_bytes rest.now)) }
{
    match few_sorted(rest) {
        Some(
            Sorted {
                first: Some(scenario),
                second: Some(name),
                strict: None,
                save,
            },
        ) => resume_from(alloc, scenario, name, save),
        _ => Ok(None),
    }
}

// The run that goes on that these words ask for.
fn resume_from(
    alloc: Global,
    scenario: &str,
    name: &str,
    save: Option<&str>,
) -> Result<Option<Request>, Mem>
    ensures { IfOk result (λ found. found
        ≡ resume_from scenario.now name.now (option_map (λ v. v.now) save.entry)) }
{
    match word_with(alloc, OptionName::Record, scenario, save)? {
        Some(found) => resume_with(alloc, found, name),
        None => Ok(None),
    }
}

// The run of what was found that goes on from the record of this name, if it is a value.
fn resume_with(alloc: Global, found: Found, name: &str) -> Result<Option<Request>, Mem>
    ensures { IfOk result (λ request. request ≡ resume_with found name.now) }
{
    match alone(alloc, name)? {
        Some(other) => Ok(Some(Request::Resume {
            scenario: found.word,
            record: other.word,
            save: found.value,
        })),
        None => Ok(None),
    }
}

// The most milliseconds to a unit of time, and the most by which a Step may be late.
const MOST_MILLISECONDS: u32 = 86_400_000;

// A pace: milliseconds to a unit of time, and by how many of them a Step may be late, where that is given.
#[derive(Clone, Copy)]
pub struct Pace {
    pub factor: u32,
    pub strict: Option<u32>,
}

fn paced_of(alloc: Global, rest: &[String]) -> Result<Option<Request>, Mem>
    ensures { IfOk result (λ found. found ≡ paced_of (map string_bytes rest.now)) }
{
    match few_sorted(rest) {
        Some(
            Sorted {
                first: Some(scenario),
                second: Some(factor),
                strict,
                save,
            },
        ) => paced_from(alloc, scenario, factor, strict, save),
        _ => Ok(None),
    }
}

// The run by a clock that these words ask for.
fn paced_from(
    alloc: Global,
    scenario: &str,
    factor: &str,
    strict: Option<&str>,
    save: Option<&str>,
) -> Result<Option<Request>, Mem>
    ensures { IfOk result (λ found. found ≡ paced_from scenario.now factor.now
        (option_map (λ v. v.now) strict.entry) (option_map (λ v. v.now) save.entry)) }
{
    match pace_of(alloc, factor, strict)? {
        Some(Pace { factor, strict }) => {
            match word_with(alloc, OptionName::Record, scenario, save)? {
                Some(Found { word, value }) => Ok(Some(Request::Paced {
                    scenario: word,
                    factor,
                    strict,
                    record: value,
                })),
                None => Ok(None),
            }
        }
        None => Ok(None),
    }
}

// The pace that these words write.
fn pace_of(alloc: Global, factor: &str, strict: Option<&str>) -> Result<Option<Pace>, Mem>
    ensures { IfOk result
        (λ pace. pace ≡ pace_of factor.now (option_map (λ v. v.now) strict.entry)) }
{
    match word_with(alloc, OptionName::Strict, factor, strict)? {
        Some(found) => Ok(pace_in(&found)),
        None => Ok(None),
    }
}

// The pace, if both are numbers.
fn pace_in(found: &Found) -> Option<Pace>
    ensures { result ≡ pace_in found.now }
{
    match number_in(1, MOST_MILLISECONDS, found.word.as_str()) {
        Some(factor) => match number_given(0, MOST_MILLISECONDS, &found.value) {
            Some(strict) => Some(Pace { factor, strict }),
            None => None,
        },
        None => None,
    }
}

// The number of a text, where there is one; nothing where it is no number.
fn number_given(least: u32, most: u32, text: &Option<Text>) -> Option<Option<u32>>
    ensures { result ≡ number_given least most text.now }
{
    match text {
        Some(text) => match number_in(least, most, text.as_str()) {
            Some(number) => Some(Some(number)),
            None => None,
        },
        None => Some(None),
    }
}

fn replay_of(alloc: Global, rest: &[String]) -> Result<Option<Request>, Mem>
    ensures { IfOk result (λ found. found ≡ replay_of (map string_bytes rest.now)) }
{
    match one_word(alloc, OptionName::Order, rest)? {
        Some(Found { word, value }) => Ok(replay_in(word, value)),
        None => Ok(None),
    }
}

// The replay of a record, if its order is a number.
fn replay_in(name: Text, order: Option<Text>) -> Option<Request>
    ensures { result ≡ replay_in name order }
{
    match order {
        Some(text) => match number_in(0, u32::MAX, text.as_str()) {
            Some(order) => Some(Request::Files(FileCommand::Replay {
                record: name,
                order: Some(order),
            })),
            None => None,
        },
        None => Some(Request::Files(FileCommand::Replay {
            record: name,
            order: None,
        })),
    }
}

fn check_of(alloc: Global, rest: &[String]) -> Result<Option<Request>, Mem>
    ensures { IfOk result (λ found. found ≡ check_of (map string_bytes rest.now)) }
{
    match only_word(alloc, rest)? {
        Some(scenario) => Ok(Some(Request::Files(FileCommand::Check { scenario }))),
        None => Ok(None),
    }
}

fn demo_of(alloc: Global, rest: &[String]) -> Result<Option<Request>, Mem>
    ensures { IfOk result (λ found. found ≡ demo_of (map string_bytes rest.now)) }
{
    match only_word(alloc, rest)? {
        Some(text) => match number_in(1, LARGEST_DEMO, text.as_str()) {
            Some(size) => Ok(Some(Request::Demo { size })),
            None => Ok(None),
        },
        None => Ok(None),
    }
}

fn pair_of(alloc: Global, command: PairCommand, rest: &[String]) -> Result<Option<Request>, Mem>
    ensures { IfOk result (λ found. found ≡ pair_of command (map string_bytes rest.now)) }
{
    match two_words(alloc, rest)? {
        Some(Two { first, second }) => Ok(Some(Request::Files(FileCommand::Pair {
            command,
            first,
            second,
        }))),
        None => Ok(None),
    }
}
