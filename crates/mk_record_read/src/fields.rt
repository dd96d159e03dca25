//! The fields of a line, from its tree.
ghost use Rattle.std.specs.Prelude.{◌≡◌, Some, None, map, IfOk, IfErr, true};
ghost use Rattle.std.specs.List.{list_all};
ghost use Rattle.mk_base.specs.Lists.{all_there, same_text};
ghost use Rattle.mk_base.specs.Texts.{text_of};
ghost use Rattle.mk_base.specs.Trees.{bool_in, text_in, whole_in, items_in, is_in_range, is_datum, texts_in};
ghost use Rattle.mk_base.specs.Names.{kind_named};
ghost use Rattle.mk_record_read.specs.Fields.{wholes_in, initial_in, way_in, way_in_list, shift_of, lone, via_of, is_between};
ghost use Rattle.mk_record_read.specs.inner.Seen.{is_second};
ghost use Rattle.mk_record_read.specs.inner.Faults.{IsMissing, IsUnknown, IsNoDatum};

use crate::faults::{LineFault, MISFORMED, OUT_OF_LIMITS};
use crate::kinds::{Version, is_second};
use mk_base::{Datum, Json, List, Mem, SimKind, Text, Via, WIDEST};
use mk_json::{DatumFault, datum};
use std::alloc::Global;

pub fn text_of(tree: &Json) -> Result<&Text, LineFault>
    ensures ok { IfOk result (λ t. text_in tree.now ≡ Some t.now) }
    ensures err { IfErr result (IsMissing (text_in tree.now)) }
{
    match tree.as_text() {
        Some(text) => Ok(text),
        None => Err(MISFORMED),
    }
}

pub fn whole_of(tree: &Json) -> Result<i128, LineFault>
    ensures ok { IfOk result (λ n. whole_in tree.now ≡ Some n) }
    ensures err { IfErr result (IsMissing (whole_in tree.now)) }
{
    match tree.as_whole() {
        Some(n) => Ok(n),
        None => Err(MISFORMED),
    }
}

pub fn bool_of(tree: &Json) -> Result<bool, LineFault>
    ensures ok { IfOk result (λ b. bool_in tree.now ≡ Some b) }
    ensures err { IfErr result (IsMissing (bool_in tree.now)) }
{
    match tree.as_bool() {
        Some(b) => Ok(b),
        None => Err(MISFORMED),
    }
}

pub fn items_of(tree: &Json) -> Result<&[Json], LineFault>
    ensures ok { IfOk result (λ js. items_in tree.now ≡ Some js.now) }
    ensures err { IfErr result (IsMissing (items_in tree.now)) }
    ensures in_range { is_in_range tree.now ≡ true
        → IfOk result (λ js. list_all is_in_range js.now ≡ true) }
{
    match tree {
        Json::List(items) => Ok(items.as_slice()),
        _ => Err(MISFORMED),
    }
}

pub fn wholes_of(alloc: Global, tree: &Json) -> Result<List<i128>, LineFault>
    ensures ok { IfOk result (λ ns. wholes_in tree.now ≡ Some ns) }
    ensures err { IfErr result (IsMissing (wholes_in tree.now)) }
{
    let items = items_of(tree)?;
    wholes_among(alloc, items)
}

fn wholes_among(alloc: Global, items: &[Json]) -> Result<List<i128>, LineFault>
    ensures ok { IfOk result (λ ns. all_there (map whole_in items.now) ≡ Some ns) }
    ensures err { IfErr result (IsMissing (all_there (map whole_in items.now))) }
{
    let mut found = List::new(alloc);
    for item in items {
        let n = whole_of(item)?;
        found.push(n)?;
    }
    Ok(found)
}

pub fn texts_of(alloc: Global, tree: &Json) -> Result<List<Text>, LineFault>
    ensures ok { IfOk result (λ ts. texts_in tree.now ≡ Some ts) }
    ensures err { IfErr result (IsMissing (texts_in tree.now)) }
{
    let items = items_of(tree)?;
    texts_among(alloc, items)
}

fn texts_among(alloc: Global, items: &[Json]) -> Result<List<Text>, LineFault>
    ensures ok { IfOk result (λ ts. all_there (map text_in items.now) ≡ Some ts) }
    ensures err { IfErr result (IsMissing (all_there (map text_in items.now))) }
{
    let mut found = List::new(alloc);
    for item in items {
        let text = text_of(item)?;
        found.push(text.copy()?)?;
    }
    Ok(found)
}

pub fn initial_of(alloc: Global, tree: &Json) -> Result<Option<Datum>, LineFault>
    requires { is_in_range tree.now ≡ true }
    ensures ok { IfOk result (λ d. initial_in tree.now ≡ Some d) }
    ensures err { IfErr result (IsMissing (initial_in tree.now)) }
{
    let items = items_of(tree)?;
    match items {
        [] => Ok(None),
        [value] => Ok(Some(datum_of(alloc, value)?)),
        _ => Err(MISFORMED),
    }
}

pub fn kind_of(name: &Text) -> Result<SimKind, LineFault>
    ensures ok { IfOk result (λ k. kind_named name.now ≡ Some k) }
    ensures err { IfErr result (IsUnknown (kind_named name.now)) }
{
    match SimKind::named(name.bytes()) {
        Some(kind) => Ok(kind),
        None => Err(OUT_OF_LIMITS),
    }
}

// How a connection delays, as it stands in a line of version 2 or of version 1: a name, and the number beside it.
pub fn way_of(version: Version, tree: &Json) -> Result<(&Text, Option<i128>), LineFault>
    ensures ok { IfOk result (λ w. way_in (is_second version) tree.now ≡ Some (w.0.now, w.1)) }
    ensures err { IfErr result (IsMissing (way_in (is_second version) tree.now)) }
{
    if let Some(name) = tree.as_text() {
        return Ok((name, None));
    }
    match tree {
        Json::List(items) => listed_way(version, items.as_slice()),
        _ => Err(MISFORMED),
    }
}

fn listed_way(version: Version, items: &[Json]) -> Result<(&Text, Option<i128>), LineFault>
    ensures ok { IfOk result
        (λ w. way_in_list (is_second version) (Some items.now) ≡ Some (w.0.now, w.1)) }
    ensures err { IfErr result (IsMissing (way_in_list (is_second version) (Some items.now))) }
{
    if !is_second(version) {
        return Err(MISFORMED);
    }
    let [name, width] = items else {
        return Err(MISFORMED);
    };
    Ok((text_of(name)?, Some(whole_of(width)?)))
}

pub fn via_of(version: Version, name: &Text, width: Option<i128>) -> Result<Via, LineFault>
    ensures ok { IfOk result (λ v. via_of (is_second version) (name.now, width) ≡ Some v) }
    ensures err { IfErr result (IsUnknown (via_of (is_second version) (name.now, width))) }
{
    let name = name.bytes();
    if is_word(name, b"plain") {
        return lone(width, Via::Plain);
    }
    if is_word(name, b"weak") {
        return lone(width, Via::Weak);
    }
    if is_word(name, b"shift") {
        return shift_of(version, width);
    }
    Err(OUT_OF_LIMITS)
}

// No number stands beside the name of such a way.
fn lone(width: Option<i128>, via: Via) -> Result<Via, LineFault>
    ensures ok { IfOk result (λ v. lone width via ≡ Some v) }
    ensures err { IfErr result (IsUnknown (lone width via)) }
{
    match width {
        None => Ok(via),
        Some(_) => Err(OUT_OF_LIMITS),
    }
}

fn shift_of(version: Version, width: Option<i128>) -> Result<Via, LineFault>
    ensures ok { IfOk result (λ v. shift_of (is_second version) width ≡ Some v) }
    ensures err { IfErr result (IsUnknown (shift_of (is_second version) width)) }
{
    if !is_second(version) {
        return Ok(Via::Shift(1));
    }
    match width {
        Some(d) if is_from(1, i128::from(WIDEST), d) => Ok(Via::Shift(d as u32)),
        _ => Err(OUT_OF_LIMITS),
    }
}

pub fn is_from(low: i128, high: i128, n: i128) -> bool
    ensures { result ≡ is_between low high n }
{
    low <= n && n <= high
}

fn datum_of(alloc: Global, tree: &Json) -> Result<Datum, LineFault>
    requires { is_in_range tree.now ≡ true }
    ensures ok { IfOk result (λ d. (d ≡ text_of tree.now) × (is_datum tree.now ≡ true)) }
    ensures err { IfErr result (IsNoDatum tree.now) }
{
    match datum(alloc, tree) {
        Ok(value) => Ok(value),
        Err(DatumFault::Mem) => Err(LineFault::Mem),
        Err(_) => Err(MISFORMED),
    }
}

pub fn is_word(name: &[u8], word: &[u8]) -> bool
    ensures { result ≡ same_text name.now word.now }
{
    name == word
}
