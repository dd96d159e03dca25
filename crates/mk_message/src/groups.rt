//! What is gathered by entity, written item by item.
ghost use Rattle.std.specs.Prelude.{◌≡◌, ◌++◌, codes, IfOk, OnOk};
ghost use Rattle.mk_base.specs.Lists.{same_text};
ghost use Rattle.mk_base.specs.Texts.{quoted};
ghost use Rattle.mk_plan.specs.Report.{inputs_text};
ghost use Rattle.mk_message.specs.inner.Streams.{rest_of, source_member, by_source, by_attribute, by_entity, attributes, wanted_by_entity};
ghost use Rattle.mk_message.specs.Written.{wanted_text};

use mk_base::{List, Mem, Text};
use mk_json::put_text;
use mk_plan::{Input, Want};
use std::alloc::Global;

/// The inputs of a step, which stand sorted by entity, attribute and source, as
/// `{entity:{attribute:{source:value}}}`. Neighbours alone are joined: nothing is sorted here.
pub fn inputs_bytes(alloc: Global, inputs: &List<Input>) -> Result<Vec<u8>, Mem>
    ensures { IfOk result (λ v. v.items ≡ inputs_text inputs.now) }
{
    let mut out = Vec::new(alloc);
    match inputs.as_slice() {
        [] => {
            out.extend_from_slice(b"{}")?;
            Ok(out)
        }
        [first, rest @ ..] => {
            put_inputs(alloc, &mut out, first, rest)?;
            Ok(out)
        }
    }
}

/// What is wanted, which stands sorted by entity and attribute, as `{entity:[attribute,..]}`.
/// Neighbours alone are joined: nothing is sorted here.
pub fn wanted_bytes(alloc: Global, wanted: &List<Want>) -> Result<Vec<u8>, Mem>
    ensures { IfOk result (λ v. v.items ≡ wanted_text wanted.now) }
{
    let mut out = Vec::new(alloc);
    match wanted.as_slice() {
        [] => {
            out.extend_from_slice(b"{}")?;
            Ok(out)
        }
        [first, rest @ ..] => {
            put_wanted(alloc, &mut out, first, rest)?;
            Ok(out)
        }
    }
}

fn put_inputs(alloc: Global, out: &mut Vec<u8>, first: &Input, rest: &[Input]) -> Result<(), Mem>
    ensures { OnOk result (out.new.items
        ≡ out.old.items ++ (by_entity.first first.now ++ rest_of by_entity first.now rest.now)) }
{
    out.extend_from_slice(b"{")?;
    put_entity(alloc, out, first)?;
    let mut previous = first;
    for input in rest {
        put_next_input(alloc, out, previous, input)?;
        previous = input;
    }
    out.extend_from_slice(b"}}}")?;
    Ok(())
}

fn put_next_input(
    alloc: Global,
    out: &mut Vec<u8>,
    previous: &Input,
    input: &Input,
) -> Result<(), Mem>
    ensures { OnOk result
        (out.new.items ≡ out.old.items ++ by_entity.next previous.now input.now) }
{
    if !is_same(&previous.eid, &input.eid) {
        out.extend_from_slice(b"}},")?;
        return put_entity(alloc, out, input);
    }
    if !is_same(&previous.attr, &input.attr) {
        out.extend_from_slice(b"},")?;
        return put_attribute(alloc, out, input);
    }
    out.extend_from_slice(b",")?;
    put_source(alloc, out, input)
}

// An entity, with the first input of it.
fn put_entity(alloc: Global, out: &mut Vec<u8>, input: &Input) -> Result<(), Mem>
    ensures { OnOk result (out.new.items
        ≡ out.old.items ++ ((quoted input.now.eid ++ codes ":") ++ by_attribute.first input.now)) }
{
    put_name(alloc, out, &input.eid)?;
    out.extend_from_slice(b"{")?;
    put_attribute(alloc, out, input)
}

// An attribute, with the first input of it.
fn put_attribute(alloc: Global, out: &mut Vec<u8>, input: &Input) -> Result<(), Mem>
    ensures { OnOk result (out.new.items
        ≡ out.old.items ++ ((quoted input.now.attr ++ codes ":") ++ by_source.first input.now)) }
{
    put_name(alloc, out, &input.attr)?;
    out.extend_from_slice(b"{")?;
    put_source(alloc, out, input)
}

fn put_source(alloc: Global, out: &mut Vec<u8>, input: &Input) -> Result<(), Mem>
    ensures { OnOk result (out.new.items ≡ out.old.items ++ source_member input.now) }
{
    put_name(alloc, out, &input.source)?;
    out.extend_from_slice(input.value.bytes())?;
    Ok(())
}

// A member's name, before its value.
fn put_name(alloc: Global, out: &mut Vec<u8>, name: &Text) -> Result<(), Mem>
    ensures { OnOk result (out.new.items ≡ out.old.items ++ (quoted name.now ++ codes ":")) }
{
    put_text(alloc, out, name)?;
    out.extend_from_slice(b":")?;
    Ok(())
}

fn put_wanted(alloc: Global, out: &mut Vec<u8>, first: &Want, rest: &[Want]) -> Result<(), Mem>
    ensures { OnOk result (out.new.items ≡ out.old.items
        ++ (wanted_by_entity.first first.now ++ rest_of wanted_by_entity first.now rest.now)) }
{
    out.extend_from_slice(b"{")?;
    put_wanted_entity(alloc, out, first)?;
    let mut previous = first;
    for want in rest {
        put_next_want(alloc, out, previous, want)?;
        previous = want;
    }
    out.extend_from_slice(b"]}")?;
    Ok(())
}

fn put_next_want(alloc: Global, out: &mut Vec<u8>, previous: &Want, want: &Want) -> Result<(), Mem>
    ensures { OnOk result
        (out.new.items ≡ out.old.items ++ wanted_by_entity.next previous.now want.now) }
{
    if !is_same(&previous.eid, &want.eid) {
        out.extend_from_slice(b"],")?;
        return put_wanted_entity(alloc, out, want);
    }
    out.extend_from_slice(b",")?;
    put_text(alloc, out, &want.attr)
}

// An entity, with the first attribute that is wanted of it.
fn put_wanted_entity(alloc: Global, out: &mut Vec<u8>, want: &Want) -> Result<(), Mem>
    ensures { OnOk result (out.new.items
        ≡ out.old.items ++ ((quoted want.now.eid ++ codes ":") ++ attributes.first want.now)) }
{
    put_name(alloc, out, &want.eid)?;
    out.extend_from_slice(b"[")?;
    put_text(alloc, out, &want.attr)
}

fn is_same(text: &Text, other: &Text) -> bool
    ensures { result ≡ same_text text.now other.now }
{
    text.bytes() == other.bytes()
}
