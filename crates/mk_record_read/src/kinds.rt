//! The kinds of a record's lines, and where they may stand.
ghost use Rattle.std.specs.Prelude.{◌≡◌};
ghost use Rattle.mk_record_read.specs.inner.Seen.{is_second};
ghost use Rattle.mk_record_read.specs.Reading.{kind_of_word, place, may_stand, ends_plan};

use crate::fields::is_word;

// The version of a record, by its first line.
#[derive(Clone, Copy, Debug)]
pub enum Version {
    First,
    Second,
}

pub fn is_second(version: Version) -> bool
    ensures { result ≡ is_second version }
{
    match version {
        Version::First => false,
        Version::Second => true,
    }
}

// What a line says, by its first word.
#[derive(Clone, Copy, Debug, PartialEq, Eq)]
pub enum LineKind {
    Head,
    Run,
    Sim,
    Model,
    Entity,
    Conn,
    Async,
    Ask,
    Got,
    End,
}

// `ask` lines stand in version 2 alone.
pub fn kind_of_word(version: Version, word: &[u8]) -> Option<LineKind>
    ensures { result ≡ kind_of_word (is_second version) word.now }
{
    if is_word(word, b"mosaikrun") {
        return Some(LineKind::Head);
    }
    if is_word(word, b"run") {
        return Some(LineKind::Run);
    }
    if is_word(word, b"sim") {
        return Some(LineKind::Sim);
    }
    if is_word(word, b"model") {
        return Some(LineKind::Model);
    }
    if is_word(word, b"entity") {
        return Some(LineKind::Entity);
    }
    if is_word(word, b"conn") {
        return Some(LineKind::Conn);
    }
    if is_word(word, b"async") {
        return Some(LineKind::Async);
    }
    if is_word(word, b"got") {
        return Some(LineKind::Got);
    }
    if is_second(version) && is_word(word, b"ask") {
        return Some(LineKind::Ask);
    }
    if is_word(word, b"end") {
        return Some(LineKind::End);
    }
    None
}

// The place of a kind in the order of lines, from 1.
pub fn place(kind: LineKind) -> u8
    ensures { result ≡ place kind }
{
    match kind {
        LineKind::Head => 1,
        LineKind::Run => 2,
        LineKind::Sim => 3,
        LineKind::Model => 4,
        LineKind::Entity => 5,
        LineKind::Conn => 6,
        LineKind::Async => 7,
        LineKind::Ask => 8,
        LineKind::Got => 8,
        LineKind::End => 9,
    }
}

pub fn may_stand(last: u8, kind: LineKind) -> bool
    ensures { result ≡ may_stand last kind }
{
    let place = place(kind);
    if last < 3 {
        place == last + 1
    } else {
        last <= place
    }
}

pub fn ends_plan(last: u8, kind: LineKind) -> bool
    ensures { result ≡ ends_plan last kind }
{
    last < 8 && 8 <= place(kind)
}
