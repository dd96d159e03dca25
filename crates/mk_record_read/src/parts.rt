//! What a line adds, by its kind and what stands after its word.
ghost use Rattle.std.specs.Prelude.{◌≡◌, Ok, Some, OnOk, IfOk, IfErr, true, ◌&&◌};
ghost use Rattle.std.specs.List.{list_all};
ghost use Rattle.mk_base.specs.Trees.{is_in_range};
ghost use Rattle.mk_json.specs.Parsed.{parsed};
ghost use Rattle.mk_message.specs.Messages.{tested};
ghost use Rattle.mk_record_read.specs.inner.Faults.{IsFaultOf, IsMissing};
ghost use Rattle.mk_record_read.specs.Fields.{misformed};
ghost use Rattle.mk_record_read.specs.Lines.{arrival_in, asked_in};
ghost use Rattle.mk_record_read.specs.Reading.{is_number, end_step, items_read, with_part};
ghost use Rattle.mk_record_read.specs.Seen.{came};
ghost use Rattle.mk_record_read.specs.inner.Seen.{is_second};
ghost use Rattle.mk_record_read.specs.Steps.{IsKnown};
ghost use Rattle.mk_record_read.specs.inner.Steps.{IsBadStep};
ghost use Rattle.mk_record_read.specs.Reading.{Ended};

use crate::faults::{LineFault, MISCOUNTED, MISFORMED};
use crate::fields::{is_word, items_of};
use crate::kinds::{LineKind, Version};
use crate::lines::{
    add_async, add_conn, add_entity, add_model, add_run, add_sim, arrival_of, asked_of,
};
use crate::plainly::{plain_arrival, plain_asked};
use crate::rooms::Rooms;
use crate::saved::{Arrival, Asked};
use itoa::Buffer;
use mk_base::{Json, are_digits, is_digit};
use mk_json::{JsonFault, Scratch, read_json_in};
use mk_plan::Plan;
use std::alloc::Global;

fn tree_of(alloc: Global, scratch: &mut Scratch, text: &[u8]) -> Result<Json, LineFault>
    ensures ok { IfOk result (λ t. parsed text.now ≡ Some t) }
    ensures err { IfErr result (IsMissing (parsed text.now)) }
    ensures in_range { IfOk result (λ t. is_in_range t ≡ true) }
{
    match read_json_in(alloc, scratch, text) {
        Ok(tree) => Ok(tree),
        Err(JsonFault::NotJson) => Err(MISFORMED),
        Err(JsonFault::Mem) => Err(LineFault::Mem),
    }
}

pub fn add_part(
    alloc: Global,
    scratch: &mut Scratch,
    plan: &mut Plan,
    version: Version,
    kind: LineKind,
    text: &[u8],
) -> Result<(), LineFault>
    ensures ok { OnOk result
        (tested misformed (items_read text.now) (with_part (is_second version) kind plan.old)
        ≡ Ok plan.new) }
    ensures err { IfErr result
        (IsFaultOf
        (tested misformed (items_read text.now) (with_part (is_second version) kind plan.old))) }
{
    let tree = tree_of(alloc, scratch, text)?;
    let items = items_of(&tree)?;
    add_items(alloc, plan, version, kind, items)
}

fn add_items(
    alloc: Global,
    plan: &mut Plan,
    version: Version,
    kind: LineKind,
    items: &[Json],
) -> Result<(), LineFault>
    requires { list_all is_in_range items.now ≡ true }
    ensures ok { OnOk result (with_part (is_second version) kind plan.old items.now ≡ Ok plan.new) }
    ensures err { IfErr result (IsFaultOf (with_part (is_second version) kind plan.old items.now)) }
{
    match kind {
        LineKind::Run => add_run(plan, items),
        LineKind::Sim => add_sim(alloc, plan, items),
        LineKind::Model => add_model(alloc, plan, items),
        LineKind::Entity => add_entity(alloc, plan, items),
        LineKind::Conn => add_conn(alloc, plan, version, items),
        LineKind::Async => add_async(plan, items),
        LineKind::Head => Err(MISFORMED),
        LineKind::Ask => Err(MISFORMED),
        LineKind::Got => Err(MISFORMED),
        LineKind::End => Err(MISFORMED),
    }
}

pub fn read_arrival(
    alloc: Global,
    rooms: &mut Rooms,
    plan: &Plan,
    text: &[u8],
) -> Result<Arrival, LineFault>
    ensures ok { IfOk result
        (λ a. tested misformed (items_read text.now) (arrival_in plan.now) ≡ Ok (came a)) }
    ensures err { IfErr result
        (IsFaultOf (tested misformed (items_read text.now) (arrival_in plan.now))) }
    ensures known { IfOk result (λ a. IsKnown plan.now (came a)) }
{
    match plain_arrival(alloc, &mut rooms.known, plan, text)? {
        Some(arrival) => Ok(arrival),
        None => parsed_arrival(alloc, &mut rooms.scratch, plan, text),
    }
}

// The same of a line that may be written in any way.
fn parsed_arrival(
    alloc: Global,
    scratch: &mut Scratch,
    plan: &Plan,
    text: &[u8],
) -> Result<Arrival, LineFault>
    ensures ok { IfOk result
        (λ a. tested misformed (items_read text.now) (arrival_in plan.now) ≡ Ok (came a)) }
    ensures err { IfErr result
        (IsFaultOf (tested misformed (items_read text.now) (arrival_in plan.now))) }
    ensures known { IfOk result (λ a. IsKnown plan.now (came a)) }
{
    let tree = tree_of(alloc, scratch, text)?;
    arrival_of(plan, tree)
}

pub fn read_asked(
    alloc: Global,
    scratch: &mut Scratch,
    plan: &Plan,
    before: u64,
    text: &[u8],
) -> Result<Asked, LineFault>
    ensures ok { IfOk result
        (λ a. tested misformed (items_read text.now) (asked_in plan.now before) ≡ Ok a) }
    ensures err { IfErr result
        (IsFaultOf (tested misformed (items_read text.now) (asked_in plan.now before))) }
{
    match plain_asked(plan, before, text) {
        Some(asked) => Ok(asked),
        None => parsed_asked(alloc, scratch, plan, before, text),
    }
}

// The same of a line that may be written in any way.
fn parsed_asked(
    alloc: Global,
    scratch: &mut Scratch,
    plan: &Plan,
    before: u64,
    text: &[u8],
) -> Result<Asked, LineFault>
    ensures ok { IfOk result
        (λ a. tested misformed (items_read text.now) (asked_in plan.now before) ≡ Ok a) }
    ensures err { IfErr result
        (IsFaultOf (tested misformed (items_read text.now) (asked_in plan.now before))) }
{
    let tree = tree_of(alloc, scratch, text)?;
    let items = items_of(&tree)?;
    asked_of(plan, before, items)
}

pub fn read_end(count: u128, text: &[u8]) -> Result<(), LineFault>
    ensures ok { OnOk result (end_step count text.now ≡ Ended) }
    ensures err { IfErr result (IsBadStep (end_step count text.now)) }
{
    let mut buffer = Buffer::new();
    if is_word(text, buffer.format(count).as_bytes()) {
        return Ok(());
    }
    if is_number(text) {
        return Err(MISCOUNTED);
    }
    Err(MISFORMED)
}

fn is_number(text: &[u8]) -> bool
    ensures { result ≡ is_number text.now }
{
    match text {
        [] => false,
        [only] => is_digit(*only),
        [first, ..] => *first > b'0' && are_digits(text),
    }
}
