//! What each entity takes in a Step.
ghost use Rattle.std.specs.Prelude.{◌≡◌, ◌<◌, ℕ, [], ◌∷◌, ◌++◌, false, true, pos, length, replicate, IfOk, IfSome, Some, List};
ghost use Rattle.std.specs.Fmt.{decimal};
ghost use Rattle.mk_plan.specs.declared.Input.{Input};
ghost use Rattle.mk_local.specs.Inputs.{added, is_input_of, number_in, takes};
ghost use Rattle.mk_local.specs.inner.Inputs.{AreTaken};

use crate::data::place_named;
use crate::names::input_of;
use crate::turn::Turn;
use mk_base::{Datum, List, Mem};
use mk_plan::Input;
use std::alloc::Global;

// Whether an entity has an input, and the sum of its inputs.
#[derive(Clone, Copy)]
pub struct Taken {
    pub seen: bool,
    pub sum: i64,
}

// What each of so many entities takes, in order; the inputs are gone through once.
pub fn gathered(
    alloc: Global,
    turn: Turn,
    count: usize,
    inputs: &List<Input>,
) -> Result<List<Taken>, Mem>
    ensures count { IfOk result (λ all. length all ≡ count) }
    ensures taken { IfOk result (λ all. AreTaken turn inputs.now all) }
{
    let mut all = nothing_taken(alloc, count)?;
    for input in inputs.as_slice() {
        put_input(turn, &mut all, input);
    }
    Ok(all)
}

// So many entities without inputs.
fn nothing_taken(alloc: Global, count: usize) -> Result<List<Taken>, Mem>
    ensures { IfOk result (λ all. all ≡ replicate count (record { seen = false; sum = pos 0 })) }
{
    let mut all = List::with_room(alloc, count)?;
    for _made in 0..count {
        all.push(Taken {
            seen: false,
            sum: 0,
        })?;
    }
    Ok(all)
}

// One more input, where it is one of these entities.
fn put_input(turn: Turn, all: &mut List<Taken>, input: &Input)
    ensures count { length all.new ≡ length all.old }
    ensures taken { (before : List Input) → AreTaken turn before all.old
        → AreTaken turn (before ++ input.now ∷ []) all.new }
{
    let Some(place) = place_of(turn, all.len(), input) else {
        return;
    };
    let taken = with_one(all.at(place), input);
    all.set(place, taken);
}

// The place, below the count, of the entity whose input this is.
fn place_of(turn: Turn, count: usize, input: &Input) -> Option<usize>
    ensures within { IfSome result (λ k. k < count) }
    ensures own { IfSome result (λ k. is_input_of turn (decimal k) input.now ≡ true) }
    ensures others { (k : ℕ) → k < count → is_input_of turn (decimal k) input.now ≡ true
        → result ≡ Some k }
{
    if takes(turn, input.attr.as_str()) {
        place_named(count, input.eid.as_str())
    } else {
        None
    }
}

// What an entity takes with one more input.
fn with_one(taken: &Taken, input: &Input) -> Taken
    ensures { result ≡ record { seen = true; sum = added taken.now.sum input.now } }
{
    Taken {
        seen: true,
        sum: taken.sum.saturating_add(number_in(&input.value)),
    }
}

// Whether the row's kind takes inputs at the attribute.
fn takes(turn: Turn, attr: &str) -> bool
    ensures { result ≡ takes turn attr.now }
{
    match input_of(turn) {
        Some(input) => attr == input,
        None => false,
    }
}

/// The number that a value writes, or 0 where it writes no whole number within 64 bits.
pub fn number_in(value: &Datum) -> i64
    ensures { result ≡ number_in value.now }
{
    match std::str::from_utf8(value.bytes()) {
        Ok(text) => match text.parse::<i64>() {
            Ok(n) => n,
            Err(_) => 0,
        },
        Err(_) => 0,
    }
}
