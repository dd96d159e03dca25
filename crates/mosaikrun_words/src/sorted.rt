//! The words after a command with two options, sorted: which are its own, and which are the values of options.
ghost use Rattle.std.specs.Prelude.{◌≡◌, None, Some, map, option_map};
ghost use Rattle.std.specs.String.{string_bytes};
ghost use Rattle.mosaikrun_words.specs.inner.Sorted.{joined, named, nothing, seen, single, sorted_of, with_option, with_plain, with_save, with_strict};

use crate::arranged::{is_value, start, value_after};
use crate::reading::long;
use crate::request::OptionName;

// What the words are: at most two of the command, and the values of options.
#[derive(Clone, Copy)]
pub struct Sorted<'a> {
    pub first: Option<&'a str>,
    pub second: Option<&'a str>,
    pub strict: Option<&'a str>,
    pub save: Option<&'a str>,
}

// The most words that there may be: two, and two options with their values.
const MOST_WORDS: usize = 6;

// What the words are, if they are few enough.
pub fn few_sorted(words: &[String]) -> Option<Sorted<'_>>
    ensures { option_map seen result ≡ sorted_of (map string_bytes words.now) }
{
    if words.len() <= MOST_WORDS {
        sort(words)
    } else {
        None
    }
}

// What the words are.
fn sort<'a>(words: &'a [String]) -> Option<Sorted<'a>>
    ensures { option_map seen result ≡ sorted_of (map string_bytes words.entry.now) }
{
    match words {
        [] => Some(nothing()),
        [word, rest @ ..] => match named(word.as_str()) {
            Some(option) => match rest {
                [value, more @ ..] => with_option(option, value.as_str(), sort(more)),
                [] => None,
            },
            None => single(word.as_str(), sort(rest)),
        },
    }
}

fn nothing<'a>() -> Sorted<'a>
    ensures { seen result ≡ nothing }
{
    Sorted {
        first: None,
        second: None,
        strict: None,
        save: None,
    }
}

// The option that the word is, if its value is the next word.
fn named(word: &str) -> Option<OptionName>
    ensures { result ≡ named word.now }
{
    if word == long(OptionName::Strict) {
        Some(OptionName::Strict)
    } else if word == long(OptionName::Record) {
        Some(OptionName::Record)
    } else {
        None
    }
}

// A word of the command, or an option with its value, and what stands behind it.
fn single<'a>(word: &'a str, behind: Option<Sorted<'a>>) -> Option<Sorted<'a>>
    ensures { option_map seen result ≡ single word.entry.now (option_map seen behind.entry) }
{
    if is_value(word) {
        with_plain(word, behind)
    } else {
        joined(word, behind)
    }
}

// An option that is one word with its value, and what stands behind it.
fn joined<'a>(word: &'a str, behind: Option<Sorted<'a>>) -> Option<Sorted<'a>>
    ensures { option_map seen result ≡ joined word.entry.now (option_map seen behind.entry) }
{
    match value_after(start(OptionName::Strict), word) {
        Some(value) => with_option(OptionName::Strict, value, behind),
        None => match value_after(start(OptionName::Record), word) {
            Some(value) => with_option(OptionName::Record, value, behind),
            None => None,
        },
    }
}

// A word of the command, and what stands behind it, if that has room.
fn with_plain<'a>(word: &'a str, behind: Option<Sorted<'a>>) -> Option<Sorted<'a>>
    ensures { option_map seen result ≡ with_plain word.entry.now (option_map seen behind.entry) }
{
    match behind {
        Some(
            Sorted {
                first,
                second: None,
                strict,
                save,
            },
        ) => Some(Sorted {
            first: Some(word),
            second: first,
            strict,
            save,
        }),
        _ => None,
    }
}

// An option with its value, and what stands behind it, if it isn't given there.
fn with_option<'a>(
    option: OptionName,
    value: &'a str,
    behind: Option<Sorted<'a>>,
) -> Option<Sorted<'a>>
    ensures { option_map seen result
        ≡ with_option option value.entry.now (option_map seen behind.entry) }
{
    match option {
        OptionName::Strict => with_strict(value, behind),
        OptionName::Record => with_save(value, behind),
        OptionName::Order => None,
    }
}

fn with_strict<'a>(value: &'a str, behind: Option<Sorted<'a>>) -> Option<Sorted<'a>>
    ensures { option_map seen result ≡ with_strict value.entry.now (option_map seen behind.entry) }
{
    match behind {
        Some(
            Sorted {
                first,
                second,
                strict: None,
                save,
            },
        ) => Some(Sorted {
            first,
            second,
            strict: Some(value),
            save,
        }),
        _ => None,
    }
}

fn with_save<'a>(value: &'a str, behind: Option<Sorted<'a>>) -> Option<Sorted<'a>>
    ensures { option_map seen result ≡ with_save value.entry.now (option_map seen behind.entry) }
{
    match behind {
        Some(
            Sorted {
                first,
                second,
                strict,
                save: None,
            },
        ) => Some(Sorted {
            first,
            second,
            strict,
            save: Some(value),
        }),
        _ => None,
    }
}
