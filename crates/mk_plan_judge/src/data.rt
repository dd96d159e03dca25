//! What the data of a reply gives, and whether it has the right form.
ghost use Rattle.std.specs.Prelude.{◌≡◌, not, nat_le, map, option_map, IfOk};
ghost use Rattle.std.specs.List.{list_any};
ghost use Rattle.mk_base.specs.Trees.{is_object, is_whole, nesting, value_depth};
ghost use Rattle.mk_plan.specs.Turns.{holds_of, is_number, is_output_time, part_for, time_in, value_for};

use crate::lookups::Lookups;
use crate::numbers::is_output_time;
use mk_base::{Json, List, Mem};
use mk_plan::Want;
use std::alloc::Global;

/// What the data give each want, in order: the member of the attribute's name in the member of the entity's name, or
/// nothing where there is none. Fails for want of memory alone.
pub fn values_for<'a>(
    alloc: Global,
    wants: &List<Want>,
    content: &'a Json,
) -> Result<Vec<Option<&'a Json>>, Mem>
    ensures { IfOk result (λ values. map (option_map (λ v. v.now)) values.items
        ≡ map (value_for content.now) wants.now) }
{
    let mut values = Vec::with_capacity(alloc, wants.len())?;
    let mut lookups = Lookups::new(content);
    for want in wants.as_slice() {
        values.push(lookups.value_for(want))?;
    }
    Ok(values)
}

// Whether the data gives no object for the entity of a wanted attribute, but something else.
pub fn some_bad_part(wants: &List<Want>, content: &Json) -> bool
    ensures { result ≡ list_any
        (λ w. holds_of (λ t. not (is_object t)) (part_for content.now w)) wants.now }
{
    let mut lookups = Lookups::new(content);
    for want in wants.as_slice() {
        if is_bad_part(lookups.part_for(want)) {
            return true;
        }
    }
    false
}

// Whether a number in a wanted value isn't whole.
pub fn some_odd_value(wants: &List<Want>, content: &Json) -> bool
    ensures { result ≡ list_any
        (λ w. holds_of (λ t. not (is_whole t)) (value_for content.now w)) wants.now }
{
    let mut lookups = Lookups::new(content);
    for want in wants.as_slice() {
        if is_odd(lookups.value_for(want)) {
            return true;
        }
    }
    false
}

// Whether a wanted value nests too deep.
pub fn some_deep_value(wants: &List<Want>, content: &Json) -> bool
    ensures { result ≡ list_any
        (λ w. holds_of (λ t. not (nat_le (nesting t) value_depth)) (value_for content.now w))
        wants.now }
{
    let mut lookups = Lookups::new(content);
    for want in wants.as_slice() {
        if is_deep(lookups.value_for(want)) {
            return true;
        }
    }
    false
}

// Whether what the data gives for an entity is no object.
fn is_bad_part(part: Option<&Json>) -> bool
    ensures { result ≡ holds_of (λ t. not (is_object t)) (option_map (λ v. v.now) part.entry) }
{
    match part {
        Some(part) => !part.is_object(),
        None => false,
    }
}

// Whether a number in the value isn't whole.
fn is_odd(value: Option<&Json>) -> bool
    ensures { result ≡ holds_of (λ t. not (is_whole t)) (option_map (λ v. v.now) value.entry) }
{
    match value {
        Some(value) => !value.is_whole(),
        None => false,
    }
}

// Whether the value nests too deep.
fn is_deep(value: Option<&Json>) -> bool
    ensures { result ≡ holds_of (λ t. not (nat_le (nesting t) value_depth))
        (option_map (λ v. v.now) value.entry) }
{
    match value {
        Some(value) => !value.is_shallow(),
        None => false,
    }
}

// Whether the data gives an output time that is none.
pub fn has_bad_time(content: &Json) -> bool
    ensures { result ≡ holds_of (λ t. not (is_number is_output_time t)) (time_in content.now) }
{
    match content.member("time") {
        Some(time) => !is_output_time(time),
        None => false,
    }
}
