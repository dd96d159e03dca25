//! Objects of whole numbers, and objects of such objects.
ghost use Rattle.std.specs.Prelude.{◌≡◌, ◌∷◌, ◌++◌, [], IfOk, IfSome, OnOk};
ghost use Rattle.std.specs.Ordering.{nat_cmp, is_lt};
ghost use Rattle.std.specs.declared.cmp.Ordering.TheVariants.{Less};
ghost use Rattle.std.specs.Cmp.Lexicographic.{slice_cmp};
ghost use Rattle.std.specs.List.Sorted.{IsStrictlySortedBy};
ghost use Rattle.std.specs.Map.{keys_of};
ghost use Rattle.std.specs.Str.{IsUtf8};
ghost use Rattle.mk_base.specs.Texts.{quoted};
ghost use Rattle.mk_message_plain.specs.inner.Members.{ending, Begins, Closes};

use crate::known::Known;
use crate::signs::{behind, name, signed};
use mk_base::{Json, List, Mem, Members, Text};
use std::alloc::Global;
use std::cmp::Ordering;

/// The objects of numbers, by their names, of a text that is an object's but for its first brace. `None` says nothing.
pub fn entities(alloc: Global, known: &mut Known, text: &[u8]) -> Result<Option<Members<Json>>, Mem>
    ensures { IfOk result (λ o. IfSome o (λ ms. Closes 1 text.now ms [])) }
{
    let mut found = List::new(alloc);
    let mut last: &[u8] = &[];
    let mut rest = text;
    while let Some((name, inner)) = entity_name(last, rest) {
        let (attributes, behind_brace) = match attributes(alloc, known, inner) {
            Ok(Some(read)) => read,
            Ok(None) => break,
            Err(e) => {
                drop(found);
                return Err(e);
            }
        };
        let Some((more, after)) = ending(behind_brace) else {
            drop(attributes);
            break;
        };
        put(
            alloc,
            known,
            &mut found,
            name,
            Json::Object(attributes),
            more,
        )?;
        if !more {
            return Ok(whole(found, after));
        }
        last = name;
        rest = after;
    }
    drop(found);
    Ok(None)
}

// The members, where nothing stands behind them.
fn whole(found: List<(Text, Json)>, rest: &[u8]) -> Option<Members<Json>>
    requires { IsStrictlySortedBy (slice_cmp nat_cmp) (keys_of found) }
    ensures members { IfSome result (λ ms. ms ≡ found) }
    ensures rest { IfSome result (λ ms. rest.now ≡ []) }
{
    match rest {
        [] => Some(in_order(found)),
        _ => {
            drop(found);
            None
        }
    }
}

// The numbers, by their names, of a text that begins as an object's does but for its first brace; and what stands
// behind the object.
fn attributes<'a>(
    alloc: Global,
    known: &mut Known,
    text: &'a [u8],
) -> Result<Option<(Members<Json>, &'a [u8])>, Mem>
    ensures { IfOk result (λ o. IfSome o (λ p. Closes 0 text.now p.0 p.1.now)) }
{
    let mut found = List::new(alloc);
    let mut last: &[u8] = &[];
    let mut rest = text;
    while let Some((name, value, more, after)) = attribute(last, rest) {
        put(alloc, known, &mut found, name, Json::Whole(value), more)?;
        if !more {
            return Ok(Some((in_order(found), after)));
        }
        last = name;
        rest = after;
    }
    drop(found);
    Ok(None)
}

// An attribute's name, above the last one, and its value; whether more attributes follow, and what stands behind.
#[inline(always)]
fn attribute<'a>(last: &[u8], text: &'a [u8]) -> Option<(&'a [u8], i128, bool, &'a [u8])>
    ensures { IfSome result (λ p. Begins 0 last.now text.now p.0.now (Json.Whole p.1) p.2 p.3.now) }
{
    let (name, digits) = next_name(last, text)?;
    let (value, sign) = signed(digits)?;
    let (more, rest) = ending(sign)?;
    Some((name, value, more, rest))
}

// The name of an entity, and what stands behind the brace that begins its attributes.
#[inline(always)]
fn entity_name<'a>(last: &[u8], text: &'a [u8]) -> Option<(&'a [u8], &'a [u8])>
    ensures text { IfSome result (λ p. text.now ≡ quoted p.0.now ++ 58 ∷ 123 ∷ p.1.now) }
    ensures above { IfSome result (λ p. slice_cmp nat_cmp last.now p.0.now ≡ Less) }
    ensures utf8 { IfSome result (λ p. IsUtf8 p.0.now) }
{
    let (name, brace) = next_name(last, text)?;
    let rest = behind(brace, b'{')?;
    Some((name, rest))
}

// A name above the last one, and what stands behind its colon.
#[inline(always)]
fn next_name<'a>(last: &[u8], text: &'a [u8]) -> Option<(&'a [u8], &'a [u8])>
    ensures text { IfSome result (λ p. text.now ≡ quoted p.0.now ++ 58 ∷ p.1.now) }
    ensures above { IfSome result (λ p. slice_cmp nat_cmp last.now p.0.now ≡ Less) }
    ensures utf8 { IfSome result (λ p. IsUtf8 p.0.now) }
{
    let (name, colon) = name(text)?;
    let rest = behind(colon, b':')?;
    if !is_below(last, name) {
        return None;
    }
    Some((name, rest))
}

#[inline(always)]
fn is_below(one: &[u8], other: &[u8]) -> bool
    ensures { result ≡ is_lt (slice_cmp nat_cmp one.now other.now) }
{
    match one.cmp(other) {
        Ordering::Less => true,
        Ordering::Equal | Ordering::Greater => false,
    }
}

// Whether more members follow, and what stands behind the comma or the brace that says so.
#[inline(always)]
fn ending(text: &[u8]) -> Option<(bool, &[u8])>
    ensures { IfSome result (λ p. text.now ≡ ending p.0 ∷ p.1.now) }
{
    match text {
        [b',', rest @ ..] => Some((true, rest)),
        [b'}', rest @ ..] => Some((false, rest)),
        _ => None,
    }
}

// Puts a member behind those that were found. Room is made for one where it is the only one.
fn put(
    alloc: Global,
    known: &mut Known,
    found: &mut List<(Text, Json)>,
    name: &[u8],
    value: Json,
    more: bool,
) -> Result<(), Mem>
    requires { IsUtf8 name.now }
    ensures { OnOk result (found.new ≡ found.old ++ (name.now, value) ∷ []) }
{
    let key = known.text(alloc, name)?;
    if !more && found.is_empty() {
        *found = List::with_room(alloc, 1)?;
    }
    found.push((key, value))
}

fn in_order(found: List<(Text, Json)>) -> Members<Json>
    requires { IsStrictlySortedBy (slice_cmp nat_cmp) (keys_of found) }
    ensures { result ≡ found }
{
    let mut found = found;
    found.trim();
    Members::from_sorted(found)
}
