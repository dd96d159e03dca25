//! Where a name stands among entries whose names rise.
ghost use Rattle.std.specs.Prelude.{◌≡◌, true, length, option_map, slice_get};
ghost use Rattle.std.specs.Ordering.{nat_cmp, is_gt};
ghost use Rattle.std.specs.Cmp.Lexicographic.{slice_cmp};
ghost use Rattle.std.specs.List.Sorted.{IsStrictlySortedBy};
ghost use Rattle.std.specs.Map.{keys_of};
ghost use Rattle.mk_base.specs.Lists.{value_under};
ghost use Rattle.mk_base.specs.inner.Lists.{place_under, is_name_at, value_if_named};

use crate::text::Text;
use std::cmp::Ordering;

/// A value, where there is one, and where a search for the next name may begin: a hint, on which no answer rests.
#[derive(Drop)]
pub struct Near<'a, V> {
    pub value: Option<&'a V>,
    pub next: usize,
}

// The value under this name, which is looked for at the place of the guess first: names are distinct, so what has this
// name there is it.
pub fn search_near<'a, V>(entries: &'a [(Text, V)], name: &[u8], guess: usize) -> Near<'a, V>
    requires { IsStrictlySortedBy (slice_cmp nat_cmp) (keys_of entries.now) }
    ensures { option_map (λ v. v.now) result.value ≡ value_under name.now entries.now }
{
    match value_at(entries, guess, name) {
        Some(value) => Near {
            value: Some(value),
            next: guess.saturating_add(1),
        },
        None => search(entries, name),
    }
}

// The same where there is no guess.
pub fn search<'a, V>(entries: &'a [(Text, V)], name: &[u8]) -> Near<'a, V>
    requires { IsStrictlySortedBy (slice_cmp nat_cmp) (keys_of entries.now) }
    ensures { option_map (λ v. v.now) result.value ≡ value_under name.now entries.now }
{
    let place = place_of(entries, name);
    let value = value_at(entries, place, name);
    let next = if value.is_some() {
        place.saturating_add(1)
    } else {
        place
    };
    Near { value, next }
}

// The value at this place, if the entry there has this name.
fn value_at<'a, V>(entries: &'a [(Text, V)], place: usize, name: &[u8]) -> Option<&'a V>
    ensures { option_map (λ v. v.now) result
        ≡ value_if_named name.now (slice_get entries.now place) }
{
    match entries.get(place) {
        Some((key, value)) if name == key.bytes() => Some(value),
        _ => None,
    }
}

// Whether the entry at this place has this name.
pub fn has_at<V>(entries: &[(Text, V)], place: usize, name: &[u8]) -> bool
    ensures { result ≡ is_name_at name.now entries.now place }
{
    match entries.get(place) {
        Some((key, _)) => name == key.bytes(),
        None => false,
    }
}

// How many of these entries, whose names rise, stand before the place of this name; the last one is
// looked at first, since names that are put in mostly come in order.
pub fn place_from_end<V>(entries: &[(Text, V)], name: &[u8]) -> usize
    requires { IsStrictlySortedBy (slice_cmp nat_cmp) (keys_of entries.now) }
    ensures { result ≡ place_under name.now entries.now }
{
    if is_behind_all(entries, name) {
        entries.len()
    } else {
        place_of(entries, name)
    }
}

// Whether there are entries, and this name comes behind the last of them; their names rise.
fn is_behind_all<V>(entries: &[(Text, V)], name: &[u8]) -> bool
    requires { IsStrictlySortedBy (slice_cmp nat_cmp) (keys_of entries.now) }
    ensures { result ≡ true → length entries.now ≡ place_under name.now entries.now }
{
    match entries.last() {
        Some((key, _)) => is_greater(name, key),
        None => false,
    }
}

// How many of these entries, whose names rise, stand before the place of this name.
fn place_of<V>(entries: &[(Text, V)], name: &[u8]) -> usize
    requires { IsStrictlySortedBy (slice_cmp nat_cmp) (keys_of entries.now) }
    ensures { result ≡ place_under name.now entries.now }
{
    entries.partition_point(|entry| is_greater(name, &entry.0))
}

fn is_greater(name: &[u8], key: &Text) -> bool
    ensures { result ≡ is_gt (slice_cmp nat_cmp name.now key.now) }
{
    match name.cmp(key.bytes()) {
        Ordering::Greater => true,
        Ordering::Equal | Ordering::Less => false,
    }
}
