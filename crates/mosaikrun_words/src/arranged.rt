//! The words after a command, brought into one spelling: the positional words, and then the option as two words.
ghost use Rattle.std.specs.Prelude.{◌≡◌, ◌&&◌, ◌++◌, ℕ, List, IfOk, MatchOption, map, option_map, if◌then◌else◌};
ghost use Rattle.std.specs.String.{string_bytes};
ghost use Rattle.mosaikrun_words.specs.inner.Arranged.{alone, behind, long, name_of, one_word, only_word, pair, start, two_words, value_after, word_with};
ghost use Rattle.mosaikrun_words.specs.Words.{is_value};

use crate::reading::{Found, Two, long, name_of, read_one, read_option, read_two};
use crate::request::OptionName;
use mk_base::{Mem, Text};
use std::alloc::Global;

// One word, and the option of this name wherever it stands.
pub fn one_word(alloc: Global, option: OptionName, rest: &[String]) -> Result<Option<Found>, Mem>
    ensures { IfOk result (λ found. found ≡ one_word (name_of option) (map string_bytes rest.now)) }
{
    match rest {
        [word] => alone(alloc, word.as_str()),
        [a, b] => beside(alloc, option, a.as_str(), b.as_str()),
        [a, b, c] => among(alloc, option, a.as_str(), b.as_str(), c.as_str()),
        _ => Ok(None),
    }
}

// One word and nothing else.
pub fn only_word(alloc: Global, rest: &[String]) -> Result<Option<Text>, Mem>
    ensures { IfOk result (λ word. word ≡ only_word (map string_bytes rest.now)) }
{
    match rest {
        [word] if is_value(word.as_str()) => Ok(Some(read_one(alloc, word.as_str())?)),
        _ => Ok(None),
    }
}

// Two words and nothing else.
pub fn two_words(alloc: Global, rest: &[String]) -> Result<Option<Two>, Mem>
    ensures { IfOk result (λ words. words ≡ two_words (map string_bytes rest.now)) }
{
    match rest {
        [a, b] if is_value(a.as_str()) && is_value(b.as_str()) => {
            Ok(Some(read_two(alloc, a.as_str(), b.as_str())?))
        }
        _ => Ok(None),
    }
}

// A word, and the value of an option, if it is given.
pub fn word_with(
    alloc: Global,
    option: OptionName,
    word: &str,
    value: Option<&str>,
) -> Result<Option<Found>, Mem>
    ensures { IfOk result (λ found. found
        ≡ word_with word.now (option_map (λ v. v.now) value.entry)) }
{
    match value {
        Some(value) => pair(alloc, option, word, Some(value)),
        None => alone(alloc, word),
    }
}

// A word alone.
pub fn alone(alloc: Global, word: &str) -> Result<Option<Found>, Mem>
    ensures { IfOk result (λ found. found ≡ alone word.now) }
{
    if is_value(word) {
        Ok(Some(Found {
            word: read_one(alloc, word)?,
            value: None,
        }))
    } else {
        Ok(None)
    }
}

// A word beside an option that is one word with its value.
fn beside(alloc: Global, option: OptionName, a: &str, b: &str) -> Result<Option<Found>, Mem>
    ensures { IfOk result (λ found. found
        ≡ (if is_value a.now then pair a.now (value_after (start (name_of option)) b.now)
        else pair b.now (value_after (start (name_of option)) a.now))) }
{
    if is_value(a) {
        pair(alloc, option, a, value_after(start(option), b))
    } else {
        pair(alloc, option, b, value_after(start(option), a))
    }
}

// A word before or behind an option and its value.
fn among(alloc: Global, option: OptionName, a: &str, b: &str, c: &str) -> Result<Option<Found>, Mem>
    ensures { IfOk result (λ found. found
        ≡ (if is_value a.now then pair a.now (behind (name_of option) b.now c.now)
        else pair c.now (behind (name_of option) a.now b.now))) }
{
    if is_value(a) {
        pair(alloc, option, a, behind(option, b, c))
    } else {
        pair(alloc, option, c, behind(option, a, b))
    }
}

// A word and the value of an option.
fn pair(
    alloc: Global,
    option: OptionName,
    word: &str,
    value: Option<&str>,
) -> Result<Option<Found>, Mem>
    ensures { IfOk result (λ found. found ≡ pair word.now (option_map (λ v. v.now) value.entry)) }
{
    match value {
        Some(value) => {
            if is_value(word) && is_value(value) {
                let found = read_option(alloc, option, name_of(option), long(option), word, value)?;
                Ok(Some(found))
            } else {
                Ok(None)
            }
        }
        None => Ok(None),
    }
}

// The value, where the word before it is the option.
fn behind<'a>(option: OptionName, word: &str, value: &'a str) -> Option<&'a str>
    ensures { option_map (λ v. v.now) result ≡ behind (name_of option) word.now value.entry.now }
{
    if word == long(option) {
        Some(value)
    } else {
        None
    }
}

// What follows the beginning, if the word has it.
pub fn value_after<'a>(start: &str, word: &'a str) -> Option<&'a str>
    ensures { option_map (λ v. v.now) result ≡ value_after start.now word.entry.now }
{
    stripped(start, word)
}

// What follows the beginning, if the word has it: said of the word.
fn stripped<'a>(start: &str, word: &'a str) -> Option<&'a str>
    ensures { MatchOption result ((v : List ℕ) → word.entry.now ≡ start.now ++ v
        → ⊥) (λ v. word.entry.now ≡ start.now ++ v.now) }
{
    word.strip_prefix(start)
}

pub fn start(option: OptionName) -> &'static str
    ensures { result.now ≡ start (name_of option) }
{
    match option {
        OptionName::Record => "--record=",
        OptionName::Order => "--order=",
        OptionName::Strict => "--strict=",
    }
}

// Whether the word may name a file or be a value.
pub fn is_value(word: &str) -> bool
    ensures { result ≡ is_value word.now }
{
    match word.as_bytes() {
        [] => false,
        [first, ..] => *first != b'-',
    }
}
