//! From an item to its payload.
ghost use Rattle.std.specs.Prelude.{◌≡◌, ◌++◌, ◌∷◌, [], codes, decimal, IfOk};
ghost use Rattle.std.specs.Fmt.{signed_decimal};
ghost use Rattle.mk_base.specs.Texts.{list_text, quoted};
ghost use Rattle.mk_plan.specs.Report.{inputs_text};
ghost use Rattle.mk_message.specs.Written.{refusal_text, item_text};

use crate::groups::{inputs_bytes, wanted_bytes};
use mk_base::{List, Mem, Text, Tier, put_signed, put_unsigned};
use mk_json::put_text;
use mk_plan::{Input, Item};
use std::alloc::Global;

/// The payload of an item. A `Step` and a `GetData` take this id, an `Answer` and a `Refuse` carry
/// their own.
pub fn write_item(alloc: Global, item: &Item, id: u64) -> Result<Vec<u8>, Mem>
    ensures { IfOk result (λ v. v.items ≡ item_text id item.now) }
{
    match item {
        Item::Step {
            at,
            inputs,
            max_advance,
        } => {
            let args = step_arguments(alloc, at, inputs, max_advance)?;
            request(alloc, id, b"\"step\"", args.as_slice(), b"{}")
        }
        Item::GetData { wanted } => {
            let args = wanted_bytes(alloc, wanted)?;
            request(alloc, id, b"\"get_data\"", args.as_slice(), b"{}")
        }
        Item::Answer { id, content } => reply(alloc, b"1", *id, content.bytes()),
        Item::Refuse { id, reason } => {
            let text = refusal(alloc, *reason)?;
            reply(alloc, b"2", *id, text.as_slice())
        }
    }
}

// `TIME,INPUTS,MAX`.
fn step_arguments(
    alloc: Global,
    at: &Tier,
    inputs: &List<Input>,
    max_advance: &i64,
) -> Result<Vec<u8>, Mem>
    ensures { IfOk result (λ v. v.items ≡ signed_decimal at.now.time ++ codes ","
        ++ inputs_text inputs.now ++ codes "," ++ signed_decimal max_advance.now) }
{
    let mut out = Vec::new(alloc);
    put_signed(&mut out, at.time)?;
    out.extend_from_slice(b",")?;
    out.extend_from_slice(inputs_bytes(alloc, inputs)?.as_slice())?;
    out.extend_from_slice(b",")?;
    put_signed(&mut out, *max_advance)?;
    Ok(out)
}

// The text of a refusal, in quotes.
fn refusal(alloc: Global, reason: u8) -> Result<Vec<u8>, Mem>
    ensures { IfOk result (λ v. v.items ≡ quoted (refusal_text reason)) }
{
    let mut out = Vec::new(alloc);
    let text = match reason {
        1 => "unknown function",
        2 => "malformed request",
        3 => "unknown entity or attribute",
        _ => "no asynchronous connection",
    };
    put_text(alloc, &mut out, &Text::of(alloc, text)?)?;
    Ok(out)
}

// `[0,ID,[NAME,[ARGUMENTS],KEYWORDS]]`, the parts being texts already.
pub fn request(
    alloc: Global,
    id: u64,
    name: &[u8],
    args: &[u8],
    named: &[u8],
) -> Result<Vec<u8>, Mem>
    ensures { IfOk result (λ v. v.items ≡ list_text (codes "0" ∷ decimal id
        ∷ list_text (name.now ∷ (codes "[" ++ args.now ++ codes "]") ∷ named.now ∷ []) ∷ [])) }
{
    let mut out = Vec::new(alloc);
    out.extend_from_slice(b"[0,")?;
    put_unsigned(&mut out, id)?;
    out.extend_from_slice(b",[")?;
    out.extend_from_slice(name)?;
    out.extend_from_slice(b",[")?;
    out.extend_from_slice(args)?;
    out.extend_from_slice(b"],")?;
    out.extend_from_slice(named)?;
    out.extend_from_slice(b"]]")?;
    Ok(out)
}

// `[TYPE,ID,CONTENT]`.
fn reply(alloc: Global, kind: &[u8], id: u64, content: &[u8]) -> Result<Vec<u8>, Mem>
    ensures { IfOk result
        (λ v. v.items ≡ list_text (kind.now ∷ decimal id ∷ content.now ∷ [])) }
{
    let mut out = Vec::new(alloc);
    out.extend_from_slice(b"[")?;
    out.extend_from_slice(kind)?;
    out.extend_from_slice(b",")?;
    put_unsigned(&mut out, id)?;
    out.extend_from_slice(b",")?;
    out.extend_from_slice(content)?;
    out.extend_from_slice(b"]")?;
    Ok(out)
}
