//! From a tree to its compact text.
ghost use Rattle.std.specs.Prelude.{◌≡◌, ◌≤◌, true, Some, ◌++◌, ◌∷◌, [], map, OnOk, OnErr};
ghost use Rattle.std.specs.List.{list_all};
ghost use Rattle.std.specs.Fmt.{signed_decimal};
ghost use Rattle.json.specs.Token.{number};
ghost use Rattle.json.specs.Tree.{json_tokens, items_tokens, members_tokens};
ghost use Rattle.mk_base.specs.Texts.{text_of};
ghost use Rattle.mk_base.specs.Trees.{nesting, in_range, is_in_range};
ghost use Rattle.mk_json.specs.inner.Outline.{outline, items_in, members_in};
ghost use Rattle.mk_json.specs.Parsed.{parsed};
ghost use Rattle.mk_base.specs.Proper.{is_proper};
ghost use Rattle.mk_base.specs.inner.Proper.{are_proper};

use json::Writer;
use mk_base::{Json, List, Mem, Members};
use std::alloc::{AllocError, Global};
use std::mem;

/// Appends the compact text of a tree, the whole numbers in which are in range: no space, members in
/// byte order of their names, the shortest escapes, and `0.5` for a number that isn't whole. Read
/// again, the text of a tree that nests at most 127 deep gives the tree back. At `Mem` `out` is as
/// before.
pub fn put_json(alloc: Global, out: &mut Vec<u8>, tree: &Json) -> Result<(), Mem>
    requires { is_in_range tree.now ≡ true }
    ensures ok { OnOk result (out.new.items ≡ out.old.items ++ text_of tree.now) }
    ensures err { OnErr result (out.new.items ≡ out.old.items) }
    ensures proper { OnOk result (is_proper tree.now ≡ true) }
    ensures reads_back { OnOk result (nesting tree.now ≤ 127
        → parsed (text_of tree.now) ≡ Some tree.now) }
{
    let kept = out.as_slice().len();
    let mut writer = Writer::new(mem::replace(out, Vec::new(alloc)));
    match write(&mut writer, tree) {
        Ok(()) => {
            *out = writer.into_inner();
            Ok(())
        }
        Err(_) => {
            *out = writer.into_inner();
            out.truncate(kept);
            Err(Mem)
        }
    }
}

#[cycle(write)]
fn write(out: &mut Writer, tree: &Json) -> Result<(), AllocError>
    requires { is_in_range tree.now ≡ true }
    ensures ok { OnOk result (out.new.tokens ≡ out.old.tokens ++ json_tokens (outline tree.now)) }
    ensures proper { OnOk result (is_proper tree.now ≡ true) }
    ensures before { out.new.before ≡ out.old.before }
{
    match tree {
        Json::Null => out.null(),
        Json::Bool(b) => out.boolean(*b),
        Json::Whole(n) => whole(out, n),
        Json::Odd => out.number("0.5"),
        Json::Text(text) => out.string(text.as_str()),
        Json::List(items) => {
            out.begin_array()?;
            write_items(out, items)
        }
        Json::Object(members) => {
            out.begin_object()?;
            write_members(out, members)
        }
    }
}

fn whole(out: &mut Writer, n: &i128) -> Result<(), AllocError>
    requires { in_range n.now ≡ true }
    ensures ok { OnOk result
        (out.new.tokens ≡ out.old.tokens ++ number (signed_decimal n.now) ∷ []) }
    ensures before { out.new.before ≡ out.old.before }
{
    if *n < 0 {
        out.i64(*n as i64)
    } else {
        out.u64(*n as u64)
    }
}

#[cycle(write)]
fn write_items(out: &mut Writer, items: &List<Json>) -> Result<(), AllocError>
    requires { list_all is_in_range items.now ≡ true }
    ensures ok { OnOk result (out.new.tokens
        ≡ out.old.tokens ++ items_tokens (items_in (map outline items.now))) }
    ensures proper { OnOk result (list_all is_proper items.now ≡ true) }
    ensures before { out.new.before ≡ out.old.before }
{
    for item in items.as_slice() {
        write(out, item)?;
    }
    out.end_array()
}

#[cycle(write)]
fn write_members(out: &mut Writer, members: &Members<Json>) -> Result<(), AllocError>
    requires { list_all (λ m. is_in_range m.1) members.now ≡ true }
    ensures ok { OnOk result (out.new.tokens
        ≡ out.old.tokens ++ members_tokens
        (members_in (map (λ m. (m.0, outline m.1)) members.now))) }
    ensures proper { OnOk result (are_proper members.now ≡ true) }
    ensures before { out.new.before ≡ out.old.before }
{
    let entries = members.entries();
    for (name, member) in entries {
        out.key(name.as_str())?;
        write(out, member)?;
    }
    out.end_object()
}
