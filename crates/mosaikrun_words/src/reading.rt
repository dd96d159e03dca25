//! What `clap` reads of words in the one spelling that they were brought into.
ghost use Rattle.std.specs.Prelude.{◌≡◌, true, false, IfOk, Some, is_some, map};
ghost use Rattle.clap.specs.Words.{HasMatchesOf, app_of, first_value, found_of, rule_of, takes};
ghost use Rattle.clap.specs.declared.builder.Command.TheViews.{out-Command as fields_of};
ghost use Rattle.mosaikrun_words.specs.inner.Apps.{bare, one_app, option_app, positional, two_app, valued};
ghost use Rattle.mosaikrun_words.specs.inner.Arranged.{long, name_of};
ghost use Rattle.mosaikrun_words.specs.Words.{is_value};

use crate::request::OptionName;
use clap::error::ErrorKind;
use clap::{Arg, ArgAction, ArgMatches, Command};
use mk_base::{Mem, Text};
use std::alloc::{AllocError, Global};

// A positional word, and the value of the option, if it is given.
#[derive(Drop)]
pub struct Found {
    pub word: Text,
    pub value: Option<Text>,
}

// Two positional words.
#[derive(Drop)]
pub struct Two {
    pub first: Text,
    pub second: Text,
}

// One positional word.
pub fn read_one(alloc: Global, word: &str) -> Result<Text, Mem>
    requires { is_value word.now ≡ true }
    ensures { IfOk result (λ t. t ≡ word.now) }
{
    let words = [word];
    let matches = read(one_command(alloc)?, &words)?;
    value_of(alloc, &matches, "first")
}

// One positional word, and an option of this name, which is spelled so, with its value.
pub fn read_option(
    alloc: Global,
    option: OptionName,
    name: &str,
    spelled: &str,
    word: &str,
    value: &str,
) -> Result<Found, Mem>
    requires name { name.now ≡ name_of option }
    requires spelled { spelled.now ≡ long (name_of option) }
    requires word { is_value word.now ≡ true }
    requires value { is_value value.now ≡ true }
    ensures { IfOk result (λ f. f ≡ record { word = word.now; value = Some value.now }) }
{
    let words = [word, spelled, value];
    let matches = read(option_command(alloc, name)?, &words)?;
    Ok(Found {
        word: value_of(alloc, &matches, "first")?,
        value: Some(value_of(alloc, &matches, name)?),
    })
}

// Two positional words.
pub fn read_two(alloc: Global, first: &str, second: &str) -> Result<Two, Mem>
    requires first { is_value first.now ≡ true }
    requires second { is_value second.now ≡ true }
    ensures { IfOk result (λ t. t ≡ record { first = first.now; second = second.now }) }
{
    let words = [first, second];
    let matches = read(two_command(alloc)?, &words)?;
    Ok(Two {
        first: value_of(alloc, &matches, "first")?,
        second: value_of(alloc, &matches, "second")?,
    })
}

// What `clap` finds in words that the command takes.
fn read<'a>(command: Command<'a>, words: &'a [&'a str]) -> Result<ArgMatches<'a>, Mem>
    requires { takes (app_of command) (map (λ w. w.now) words.now) ≡ true }
    ensures { IfOk result (HasMatchesOf (app_of command.entry) (map (λ w. w.now) words.entry.now)) }
{
    match command.try_get_matches_from(words) {
        Ok(matches) => Ok(matches),
        Err(error) => match error.kind() {
            ErrorKind::OutOfMemory => Err(Mem),
            _ => unreachable!(),
        },
    }
}

// The value that was found.
fn value_of(alloc: Global, matches: &ArgMatches, id: &str) -> Result<Text, Mem>
    requires { is_some (first_value (found_of matches.now) id.now) ≡ true }
    ensures { IfOk result (λ t. first_value (found_of matches.now) id.now ≡ Some t) }
{
    match matches.get_str(id) {
        Some(value) => Text::of(alloc, value),
        None => unreachable!(),
    }
}

pub fn name_of(option: OptionName) -> &'static str
    ensures { result.now ≡ name_of option }
{
    match option {
        OptionName::Record => "record",
        OptionName::Order => "order",
        OptionName::Strict => "strict",
    }
}

pub fn long(option: OptionName) -> &'static str
    ensures { result.now ≡ long (name_of option) }
{
    match option {
        OptionName::Record => "--record",
        OptionName::Order => "--order",
        OptionName::Strict => "--strict",
    }
}

fn positional<'a>(alloc: Global, id: &'a str) -> Arg<'a>
    ensures rule { rule_of result ≡ positional id.entry.now }
    ensures local { result.global ≡ false }
{
    Arg::new(alloc, id).required(true).action(ArgAction::Set)
}

fn valued<'a>(alloc: Global, name: &'a str) -> Arg<'a>
    ensures rule { rule_of result ≡ valued name.entry.now }
    ensures local { result.global ≡ false }
{
    Arg::new(alloc, name).long(name).action(ArgAction::Set)
}

fn bare<'a>(alloc: Global) -> Command<'a>
    ensures shape { app_of result ≡ bare }
    ensures local { (fields_of result).has_globals ≡ false }
{
    Command::new(alloc, "mosaikrun")
        .no_binary_name(true)
        .disable_help_flag(true)
        .disable_help_subcommand(true)
        .disable_version_flag(true)
}

fn one_command<'a>(alloc: Global) -> Result<Command<'a>, AllocError>
    ensures shape { IfOk result (λ c. app_of c ≡ one_app) }
    ensures local { IfOk result (λ c. (fields_of c).has_globals ≡ false) }
{
    bare(alloc).arg(positional(alloc, "first"))
}

fn option_command<'a>(alloc: Global, name: &'a str) -> Result<Command<'a>, AllocError>
    ensures shape { IfOk result (λ c. app_of c ≡ option_app name.entry.now) }
{
    one_command(alloc)?.arg(valued(alloc, name))
}

fn two_command<'a>(alloc: Global) -> Result<Command<'a>, AllocError>
    ensures shape { IfOk result (λ c. app_of c ≡ two_app) }
    ensures local { IfOk result (λ c. (fields_of c).has_globals ≡ false) }
{
    one_command(alloc)?.arg(positional(alloc, "second"))
}
