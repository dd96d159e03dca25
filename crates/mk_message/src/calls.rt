//! From a request of the handshake, or a stop, to its payload.
ghost use Rattle.std.specs.Prelude.{◌≡◌, ◌++◌, true, codes, decimal, map, flat_map, IfOk, OnOk};
ghost use Rattle.std.specs.List.{list_all, join_with_byte};
ghost use Rattle.mk_base.specs.Lists.{text_order};
ghost use Rattle.mk_base.specs.Texts.{quoted, text_of};
ghost use Rattle.mk_base.specs.Trees.{is_in_range};
ghost use Rattle.mk_message.specs.Written.{call_text, init_params, is_call_in_range, texts_of, with_resolution};
ghost use Rattle.mk_message.specs.inner.Written.{member_text};

use crate::items::request;
use mk_base::{Json, Mem, Text, put_unsigned};
use mk_json::{put_json, put_text};
use mk_plan::Call;
use std::alloc::Global;
use std::cmp::Ordering;

/// The payload of a request of the handshake, or of a stop. An `Init` gets the member
/// `"time_resolution":1` among its parameters, in place of one of that name.
pub fn write_call(alloc: Global, call: &Call, id: u64) -> Result<Vec<u8>, Mem>
    requires { is_call_in_range call.now ≡ true }
    ensures { IfOk result (λ v. v.items ≡ call_text id call.now) }
{
    match call {
        Call::Init { sim, params } => {
            let args = quoted(alloc, sim)?;
            let named = parameters(alloc, params)?;
            request(alloc, id, b"\"init\"", args.as_slice(), named.as_slice())
        }
        Call::Create { num, model, params } => {
            let args = create_arguments(alloc, *num, model)?;
            let named = tree_bytes(alloc, params)?;
            request(alloc, id, b"\"create\"", args.as_slice(), named.as_slice())
        }
        Call::SetupDone => request(alloc, id, b"\"setup_done\"", b"", b"{}"),
        Call::Stop => request(alloc, id, b"\"stop\"", b"", b"{}"),
    }
}

fn quoted(alloc: Global, text: &Text) -> Result<Vec<u8>, Mem>
    ensures { IfOk result (λ v. v.items ≡ quoted text.now) }
{
    let mut out = Vec::new(alloc);
    put_text(alloc, &mut out, text)?;
    Ok(out)
}

fn tree_bytes(alloc: Global, tree: &Json) -> Result<Vec<u8>, Mem>
    requires { is_in_range tree.now ≡ true }
    ensures { IfOk result (λ v. v.items ≡ text_of tree.now) }
{
    let mut out = Vec::new(alloc);
    put_json(alloc, &mut out, tree)?;
    Ok(out)
}

// `NUM,MODEL`.
fn create_arguments(alloc: Global, num: u32, model: &Text) -> Result<Vec<u8>, Mem>
    ensures { IfOk result (λ v. v.items ≡ decimal num ++ codes "," ++ quoted model.now) }
{
    let mut out = Vec::new(alloc);
    put_unsigned(&mut out, num as u64)?;
    out.extend_from_slice(b",")?;
    put_text(alloc, &mut out, model)?;
    Ok(out)
}

fn parameters(alloc: Global, params: &Json) -> Result<Vec<u8>, Mem>
    requires { is_in_range params.now ≡ true }
    ensures { IfOk result (λ v. v.items ≡ init_params params.now) }
{
    let mut out = Vec::new(alloc);
    out.extend_from_slice(b"{")?;
    match params {
        Json::Object(members) => {
            put_parameters(alloc, &mut out, members.entries())?;
            out.extend_from_slice(b"}")?;
            Ok(out)
        }
        _ => {
            out.extend_from_slice(b"\"time_resolution\":1}")?;
            Ok(out)
        }
    }
}

// The members, with the time resolution at its place in byte order.
fn put_parameters(alloc: Global, out: &mut Vec<u8>, members: &[(Text, Json)]) -> Result<(), Mem>
    requires { list_all (λ m. is_in_range m.1) members.now ≡ true }
    ensures { OnOk result (out.new.items ≡ out.old.items
        ++ join_with_byte 44 (map member_text (with_resolution (texts_of members.now)))) }
{
    match members {
        [] => {
            out.extend_from_slice(b"\"time_resolution\":1")?;
            Ok(())
        }
        [first, rest @ ..] => match resolution_order(&first.0) {
            Ordering::Less => {
                out.extend_from_slice(b"\"time_resolution\":1")?;
                put_following(alloc, out, members)
            }
            Ordering::Equal => {
                out.extend_from_slice(b"\"time_resolution\":1")?;
                put_following(alloc, out, rest)
            }
            Ordering::Greater => {
                put_member(alloc, out, &first.0, &first.1)?;
                out.extend_from_slice(b",")?;
                put_parameters(alloc, out, rest)
            }
        },
    }
}

// How `time_resolution` stands to a name, in byte order.
fn resolution_order(name: &Text) -> Ordering
    ensures { result ≡ text_order (codes "time_resolution") name.now }
{
    "time_resolution".cmp(name.as_str())
}

fn put_following(alloc: Global, out: &mut Vec<u8>, members: &[(Text, Json)]) -> Result<(), Mem>
    requires { list_all (λ m. is_in_range m.1) members.now ≡ true }
    ensures { OnOk result (out.new.items ≡ out.old.items
        ++ flat_map (λ m. codes "," ++ member_text m) (texts_of members.now)) }
{
    for (name, value) in members {
        out.extend_from_slice(b",")?;
        put_member(alloc, out, name, value)?;
    }
    Ok(())
}

fn put_member(alloc: Global, out: &mut Vec<u8>, name: &Text, value: &Json) -> Result<(), Mem>
    requires { is_in_range value.now ≡ true }
    ensures { OnOk result
        (out.new.items ≡ out.old.items ++ (quoted name.now ++ codes ":" ++ text_of value.now)) }
{
    put_text(alloc, out, name)?;
    out.extend_from_slice(b":")?;
    put_json(alloc, out, value)
}
