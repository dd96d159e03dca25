//! The data among the trees.
ghost use Rattle.std.specs.Prelude.{◌≡◌, ◌<◌, ◌↔◌, true, false, Err, IfOk, OnOk};
ghost use Rattle.std.specs.Fmt.{signed_decimal};
ghost use Rattle.mk_base.specs.Texts.{text_of};
ghost use Rattle.mk_base.specs.Proper.{is_proper};
ghost use Rattle.mk_base.specs.Trees.{nesting, value_depth, in_range, is_whole, is_in_range, is_datum};

use crate::put_json;
use itoa::Buffer;
use mk_base::{Datum, Json, Mem};
use std::alloc::Global;
use thiserror::Error;

/// Why a tree has no datum, or want of memory.
#[derive(Debug, Drop, Error)]
pub enum DatumFault {
    #[error("a number that isn't whole")]
    NotWhole,
    #[error("nested deeper than 100")]
    TooDeep,
    #[error("out of memory")]
    Mem,
}

/// The text of a value that a simulator may give or get, whose whole numbers are in range: it is a
/// datum, so nothing but memory can be wanting.
pub fn datum_of(alloc: Global, value: &Json) -> Result<Datum, Mem>
    requires in_range { is_in_range value.now ≡ true }
    requires value { is_datum value.now ≡ true }
    ensures { IfOk result (λ text. text ≡ text_of value.now) }
{
    match datum(alloc, value) {
        Ok(text) => Ok(text),
        Err(DatumFault::Mem) => Err(Mem),
        Err(_) => unreachable!(),
    }
}

/// The datum whose bytes are the compact text of a tree, the whole numbers in which are in range.
/// `NotWhole` comes exactly where a number in the tree isn't whole, and else `TooDeep` exactly where
/// it nests deeper than 100.
pub fn datum(alloc: Global, tree: &Json) -> Result<Datum, DatumFault>
    requires { is_in_range tree.now ≡ true }
    ensures ok { IfOk result (λ d. (d ≡ text_of tree.now) × (is_datum tree.now ≡ true)) }
    ensures not_whole { (result ≡ Err DatumFault.NotWhole) ↔ (is_whole tree.now ≡ false) }
    ensures too_deep { (result ≡ Err DatumFault.TooDeep)
        ↔ ((is_whole tree.now ≡ true) × (value_depth < nesting tree.now)) }
{
    if !tree.is_whole() {
        return Err(DatumFault::NotWhole);
    }
    if !tree.is_shallow() {
        return Err(DatumFault::TooDeep);
    }
    if let Json::Whole(n) = tree {
        return match whole_datum(alloc, n) {
            Ok(datum) => Ok(datum),
            Err(_) => Err(DatumFault::Mem),
        };
    }
    match written(alloc, tree) {
        Ok(text) => Ok(Datum::of(text)),
        Err(_) => Err(DatumFault::Mem),
    }
}

// The datum of a whole number: its digits, which are written in place.
fn whole_datum(alloc: Global, n: &i128) -> Result<Datum, Mem>
    requires { in_range n.now ≡ true }
    ensures { IfOk result (λ d. d ≡ signed_decimal n.now) }
{
    let mut buffer = Buffer::new();
    Datum::copied(alloc, buffer.format(*n).as_bytes())
}

fn written(alloc: Global, tree: &Json) -> Result<Vec<u8>, Mem>
    requires { is_in_range tree.now ≡ true }
    ensures ok { IfOk result (λ v. v.items ≡ text_of tree.now) }
    ensures proper { OnOk result (is_proper tree.now ≡ true) }
{
    let mut text = Vec::with_capacity(alloc, room_for(tree))?;
    put_json(alloc, &mut text, tree)?;
    Ok(text)
}

// How many bytes to make room for at first: the digits of a whole number and its sign, a text with
// its quotes, some for values with values in them.
fn room_for(tree: &Json) -> usize {
    match tree {
        Json::Null | Json::Bool(_) | Json::Odd => 5,
        Json::Whole(_) => 20,
        Json::Text(text) => text.bytes().len().saturating_add(2),
        Json::List(_) | Json::Object(_) => 64,
    }
}
