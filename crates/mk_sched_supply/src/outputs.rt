//! What the data of a reply give.
ghost use Rattle.std.specs.Prelude.{◌≡◌, map, IfOk, option_map};
ghost use Rattle.mk_plan.specs.Turns.{value_for};
ghost use Rattle.mk_sched_supply.specs.Outputs.{found_values};
ghost use Rattle.mk_sched_supply.specs.inner.Making.{are_given, is_given};

use crate::feeds::Feed;
use mk_base::{Json, Mem};
use mk_plan_judge::values_for;
use std::alloc::Global;

/// What the data of a reply give: for each want of the simulator the value, where there is one, and for each of its
/// triggering connections in plan order whether it is given one.
#[derive(Drop)]
pub struct Outputs<'a> {
    pub values: Vec<Option<&'a Json>>,
    pub given: Vec<bool>,
}

impl<'a> Outputs<'a> {
    // No value, for no want.
    pub(crate) fn none(alloc: Global) -> Outputs<'a> {
        Outputs {
            values: Vec::new(alloc),
            given: Vec::new(alloc),
        }
    }
}

// What the data give the wants and triggering connections of a feed.
pub fn outputs_of<'a>(alloc: Global, feed: &Feed, content: &'a Json) -> Result<Outputs<'a>, Mem>
    ensures values { IfOk result (λ outs. found_values outs
        ≡ map (value_for content.now) feed.now.wants) }
    ensures given { IfOk result (λ outs. outs.given.items
        ≡ are_given (found_values outs) feed.now.triggers.items) }
{
    let values = values_for(alloc, &feed.wants, content)?;
    let given = given_of(alloc, values.as_slice(), feed.triggers.as_slice())?;
    Ok(Outputs { values, given })
}

// Whether there is a value at each of these places.
fn given_of(alloc: Global, values: &[Option<&Json>], places: &[usize]) -> Result<Vec<bool>, Mem>
    ensures { IfOk result (λ given. given.items
        ≡ are_given (map (option_map (λ v. v.now)) values.now) places.now) }
{
    let mut given = Vec::with_capacity(alloc, places.len())?;
    for place in places {
        given.push(is_given(values, *place))?;
    }
    Ok(given)
}

// Whether there is a value at the place.
fn is_given(values: &[Option<&Json>], place: usize) -> bool
    ensures { result ≡ is_given (map (option_map (λ v. v.now)) values.now) place }
{
    match values.get(place) {
        Some(value) => value.is_some(),
        None => false,
    }
}
