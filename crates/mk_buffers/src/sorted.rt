//! Inputs: how one is made of names and a value, and put among sorted ones.
ghost use Rattle.std.specs.Prelude.{◌≡◌, IfOk, OnOk, length};
ghost use Rattle.std.specs.List.Sorted.{IsStrictlySortedBy, IsBinarySearchResult, IsSearchInRange};
ghost use Rattle.std.specs.Ordering.{ordering_then};
ghost use Rattle.mk_base.specs.Lists.{put, text_order};
ghost use Rattle.mk_plan.specs.Inputs.{input_order};

use mk_base::{Datum, List, Mem, Text};
use mk_plan::Input;
use std::cmp::Ordering;

// The input of these names and this value.
pub fn input_named(eid: &Text, attr: &Text, source: &Text, value: &Datum) -> Result<Input, Mem>
    ensures { IfOk result (λ n. n
        ≡ record {
          eid = eid.now;
          attr = attr.now;
          source = source.now;
          value = value.now;
        }) }
{
    Ok(Input {
        eid: eid.copy()?,
        attr: attr.copy()?,
        source: source.copy()?,
        value: value.copy()?,
    })
}

// Puts an input at its place among sorted ones, in place of an equal one.
pub fn put_input(inputs: &mut List<Input>, new: Input) -> Result<(), Mem>
    ensures put { IsStrictlySortedBy input_order inputs.old
        → OnOk result (inputs.new ≡ put input_order new inputs.old) }
    ensures sorted { IsStrictlySortedBy input_order inputs.old
        → OnOk result (IsStrictlySortedBy input_order inputs.new) }
{
    let place = place_of(inputs.as_slice(), &new);
    inputs.put_at(place, new)
}

// Where an equal input stands, or else the place before which the new one belongs.
fn place_of(inputs: &[Input], new: &Input) -> Result<usize, usize>
    ensures within { IsSearchInRange result (length inputs.now) }
    ensures found { IsBinarySearchResult (λ y. input_order y new.now) inputs.now result }
{
    inputs.binary_search_by(|input| input_order(input, new))
}

// By eid, then attribute, then source, each in byte order.
fn input_order(first: &Input, second: &Input) -> Ordering
    ensures { result ≡ input_order first.now second.now }
{
    let eids = first.eid.bytes().cmp(second.eid.bytes());
    let attrs = or_texts(eids, &first.attr, &second.attr);
    or_texts(attrs, &first.source, &second.source)
}

// The order that was found, or else that of two texts, in byte order.
pub fn or_texts(found: Ordering, first: &Text, second: &Text) -> Ordering
    ensures { result ≡ ordering_then found (text_order first.now second.now) }
{
    match found {
        Ordering::Less => Ordering::Less,
        Ordering::Equal => first.bytes().cmp(second.bytes()),
        Ordering::Greater => Ordering::Greater,
    }
}
