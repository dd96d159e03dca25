//! From bytes to a tree.
ghost use Rattle.std.specs.Prelude.{◌≡◌, true, Err, IfOk, None, Some};
ghost use Rattle.std.specs.List.{list_all};
ghost use Rattle.mk_base.specs.Trees.{is_in_range, is_object};
ghost use Rattle.mk_scenario_toml.specs.Document.{tree_of, items_of, members_of, toml_of};
ghost use Rattle.toml.specs.View.{view, items_view, members_view};

use crate::fault::TomlFault;
use mk_base::{Json, List, Mem, Members, Text};
use std::alloc::Global;
use toml::{Table, Value};

/// The object whose members are the keys and values of a text of TOML 1.1 in UTF-8, as `toml` reads
/// it. A table is an object, and an array a list in its order. Integers are whole; what is neither
/// an integer, a truth value, a text, an array nor a table is `Odd`: floats, infinity and `nan`
/// among them, dates and times. `NotToml` comes for any other bytes, as for a text that gives a key
/// twice, that has an integer outside of 64 bits with a sign, that has more than 80 arrays and
/// inline tables in one another, or a key of more than 80 parts; `Mem` for want of memory.
pub fn read_toml(alloc: Global, bytes: &[u8]) -> Result<Json, TomlFault>
    ensures ok { IfOk result (λ tree. toml_of bytes.now ≡ Some tree) }
    ensures sound { IfOk result (λ tree. (is_in_range tree ≡ true) × (is_object tree ≡ true)) }
    ensures refused { result ≡ Err TomlFault.NotToml → toml_of bytes.now ≡ None }
{
    match toml::table_from_slice(alloc, bytes) {
        Ok(table) => Ok(Json::Object(convert_members(alloc, &table)?)),
        Err(e) => {
            if e.is_memory() {
                Err(TomlFault::Mem)
            } else {
                Err(TomlFault::NotToml)
            }
        }
    }
}

#[cycle(convert)]
fn convert(alloc: Global, value: &Value) -> Result<Json, Mem>
    ensures tree { IfOk result (λ t. t ≡ tree_of (view value.now)) }
    ensures in_range { IfOk result (λ t. is_in_range t ≡ true) }
{
    match value {
        Value::String(text) => Ok(Json::Text(Text::of(alloc, text.as_str())?)),
        Value::Integer(n) => Ok(Json::Whole(*n as i128)),
        Value::Float(_) => Ok(Json::Odd),
        Value::Boolean(b) => Ok(Json::Bool(*b)),
        Value::Datetime(_) => Ok(Json::Odd),
        Value::Array(items) => Ok(Json::List(convert_items(alloc, items)?)),
        Value::Table(members) => Ok(Json::Object(convert_members(alloc, members)?)),
    }
}

#[cycle(convert)]
fn convert_items(alloc: Global, items: &Vec<Value>) -> Result<List<Json>, Mem>
    ensures trees { IfOk result (λ ts. ts ≡ items_of (items_view items.now.items)) }
    ensures in_range { IfOk result (λ ts. list_all is_in_range ts ≡ true) }
{
    let mut found = List::new(alloc);
    for item in items {
        found.push(convert(alloc, item)?)?;
    }
    Ok(found)
}

#[cycle(convert)]
fn convert_members(alloc: Global, members: &Table) -> Result<Members<Json>, Mem>
    ensures trees { IfOk result (λ ms. ms ≡ members_of (members_view members.now.entries)) }
    ensures in_range { IfOk result (λ ms. list_all (λ m. is_in_range m.1) ms ≡ true) }
{
    let mut found = List::new(alloc);
    for (name, member) in members.iter() {
        let name = Text::of(alloc, name.as_str())?;
        found.push((name, convert(alloc, member)?))?;
    }
    Ok(Members::from_sorted(found))
}
