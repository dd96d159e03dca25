//! The lines of a report, one for each item.
ghost use Rattle.std.specs.Prelude.{◌≡◌, ◌++◌, codes, OnOk};
ghost use Rattle.std.specs.Fmt.{decimal, signed_decimal};
ghost use Rattle.mk_plan.specs.Report.{line_of, inputs_text};

use mk_base::{Datum, List, Mem, Tier, put, put_signed, put_unsigned};
use mk_message::inputs_bytes;
use mk_plan::{Input, Item};
use std::alloc::Global;

// Appends an item's line; nothing for a GetData.
pub fn put_line(alloc: Global, out: &mut Vec<u8>, item: &Item) -> Result<(), Mem>
    ensures { OnOk result (out.new.items ≡ out.old.items ++ line_of item.now) }
{
    match item {
        Item::Step {
            at,
            inputs,
            max_advance: _,
        } => put_step(alloc, out, at, inputs),
        Item::GetData { wanted: _ } => Ok(()),
        Item::Answer { id, content } => put_answer(out, *id, content),
        Item::Refuse { id, reason } => put_refusal(out, *id, *reason as u64),
    }
}

// Appends the line of an answer: the request's number and what is answered.
fn put_answer(out: &mut Vec<u8>, id: u64, content: &Datum) -> Result<(), Mem>
    ensures { OnOk result (out.new.items ≡ out.old.items
        ++ (codes "answer " ++ decimal id ++ codes " " ++ content.now ++ codes "\n")) }
{
    put(out, "answer ")?;
    put_unsigned(out, id)?;
    put(out, " ")?;
    put_bytes(out, content.bytes())?;
    put(out, "\n")
}

// Appends the line of a refusal: the request's number and why it is refused.
fn put_refusal(out: &mut Vec<u8>, id: u64, reason: u64) -> Result<(), Mem>
    ensures { OnOk result (out.new.items ≡ out.old.items
        ++ (codes "refuse " ++ decimal id ++ codes " " ++ decimal reason ++ codes "\n")) }
{
    put(out, "refuse ")?;
    put_unsigned(out, id)?;
    put(out, " ")?;
    put_unsigned(out, reason)?;
    put(out, "\n")
}

// Appends a Step's line: its time and tier, and its inputs.
fn put_step(alloc: Global, out: &mut Vec<u8>, at: &Tier, inputs: &List<Input>) -> Result<(), Mem>
    ensures { OnOk result (out.new.items ≡ out.old.items
        ++ (codes "step " ++ signed_decimal at.now.time ++ codes ":" ++ decimal at.now.tier
        ++ codes " " ++ inputs_text inputs.now ++ codes "\n")) }
{
    put(out, "step ")?;
    put_signed(out, at.time)?;
    put(out, ":")?;
    put_unsigned(out, at.tier as u64)?;
    put(out, " ")?;
    put_inputs(alloc, out, inputs)?;
    put(out, "\n")
}

fn put_inputs(alloc: Global, out: &mut Vec<u8>, inputs: &List<Input>) -> Result<(), Mem>
    ensures { OnOk result (out.new.items ≡ out.old.items ++ inputs_text inputs.now) }
{
    put_bytes(out, inputs_bytes(alloc, inputs)?.as_slice())
}

pub fn put_bytes(out: &mut Vec<u8>, bytes: &[u8]) -> Result<(), Mem>
    ensures { OnOk result (out.new.items ≡ out.old.items ++ bytes.now) }
{
    out.extend_from_slice(bytes)?;
    Ok(())
}

pub fn put_count(alloc: Global, out: &mut Vec<u8>, n: u128) -> Result<(), Mem>
    ensures { OnOk result (out.new.items ≡ out.old.items ++ decimal n) }
{
    put_bytes(out, n.to_string(alloc)?.as_bytes())
}

// Appends the last line, with the number of all Steps.
pub fn put_total(alloc: Global, out: &mut Vec<u8>, total: u128) -> Result<(), Mem>
    ensures { OnOk result (out.new.items ≡ out.old.items
        ++ (codes "end " ++ decimal total ++ codes "\n")) }
{
    put(out, "end ")?;
    put_count(alloc, out, total)?;
    put(out, "\n")
}
