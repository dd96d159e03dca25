//! What stands under a table's keys. Each fault names the key by its path, or the item of its list.
ghost use Rattle.std.specs.Prelude.{◌≡◌, [], None, Some, IfOk, IfErr, Ok, false, option_map, pos};
ghost use Rattle.mk_base.specs.declared.json.Json.{Json};
ghost use Rattle.mk_base.specs.declared.json.Json as tree;
ghost use Rattle.mk_base.specs.Trees.{member};
ghost use Rattle.mk_scenario_keys.specs.Keys as keys;
ghost use Rattle.mk_scenario_keys.specs.Tests.{IsFaultOf, key_in};
ghost use Rattle.mk_base.specs.Limits.{latest_end};

use crate::fault::ScenarioFault;
use crate::paths::key_in;
use crate::values;
use mk_base::{Json, LATEST_END, List, Members, Text};
use std::alloc::Global;

/// The text under a key that must stand in the table of this path. Errors: `Missing` without it, `WrongKind` of another
/// value; `Mem`.
pub fn required_text<'a>(
    alloc: Global,
    path: &Text,
    key: &str,
    table: &'a Json,
) -> Result<&'a Text, ScenarioFault>
    ensures ok { IfOk result
        (λ t. keys.required (key_in path.now key.now) keys.text (member key.now table.now)
        ≡ Ok t.now) }
    ensures refused { IfErr result
        (λ e. IsFaultOf (keys.required (key_in path.now key.now) keys.text
        (member key.now table.now)) e) }
{
    let path = key_in(alloc, path, key)?;
    match table.member(key) {
        Some(value) => values::text(&path, value),
        None => Err(ScenarioFault::Missing(path)),
    }
}

/// The text spelled as a name under a key that must stand in the table of this path: a letter or `_`, then letters,
/// digits and `_`, at most 64 bytes in all. Errors: `Missing` without it, `WrongKind` of another value, `OutOfRange` of
/// another text; `Mem`.
pub fn required_name<'a>(
    alloc: Global,
    path: &Text,
    key: &str,
    table: &'a Json,
) -> Result<&'a Text, ScenarioFault>
    ensures ok { IfOk result
        (λ t. keys.required (key_in path.now key.now) keys.name (member key.now table.now)
        ≡ Ok t.now) }
    ensures refused { IfErr result
        (λ e. IsFaultOf (keys.required (key_in path.now key.now) keys.name
        (member key.now table.now)) e) }
{
    let path = key_in(alloc, path, key)?;
    match table.member(key) {
        Some(value) => values::name(&path, value),
        None => Err(ScenarioFault::Missing(path)),
    }
}

/// The text under a key that the table of this path may leave out. Errors: `WrongKind` of another value; `Mem`.
pub fn optional_text<'a>(
    alloc: Global,
    path: &Text,
    key: &str,
    table: &'a Json,
) -> Result<Option<&'a Text>, ScenarioFault>
    ensures ok { IfOk result
        (λ t. keys.optional None (key_in path.now key.now) keys.some_text (member key.now table.now)
        ≡ Ok (option_map (λ x. x.now) t)) }
    ensures refused { IfErr result
        (λ e. IsFaultOf (keys.optional None (key_in path.now key.now) keys.some_text
        (member key.now table.now)) e) }
{
    match table.member(key) {
        Some(value) => Ok(Some(values::text(&key_in(alloc, path, key)?, value)?)),
        None => Ok(None),
    }
}

/// The port, from 1, of an address on this machine under a key that the table of this path may leave out: `127.0.0.1`
/// or `localhost`, a colon, the port's digits without a leading zero. Errors: `WrongKind` of a value that is no text,
/// `OutOfRange` of another text; `Mem`.
pub fn optional_port(
    alloc: Global,
    path: &Text,
    key: &str,
    table: &Json,
) -> Result<Option<u16>, ScenarioFault>
    ensures ok { IfOk result
        (λ port. keys.optional None (key_in path.now key.now) keys.some_port
        (member key.now table.now) ≡ Ok port) }
    ensures refused { IfErr result
        (λ e. IsFaultOf (keys.optional None (key_in path.now key.now) keys.some_port
        (member key.now table.now)) e) }
{
    match table.member(key) {
        Some(value) => Ok(Some(values::port(&key_in(alloc, path, key)?, value)?)),
        None => Ok(None),
    }
}

/// The truth value under a key that the table of this path may leave out, false then. Errors: `WrongKind` of another
/// value; `Mem`.
pub fn truth_or_false(
    alloc: Global,
    path: &Text,
    key: &str,
    table: &Json,
) -> Result<bool, ScenarioFault>
    ensures ok { IfOk result
        (λ b. keys.optional false (key_in path.now key.now) keys.truth (member key.now table.now)
        ≡ Ok b) }
    ensures refused { IfErr result
        (λ e. IsFaultOf (keys.optional false (key_in path.now key.now) keys.truth
        (member key.now table.now)) e) }
{
    match table.member(key) {
        Some(value) => values::truth(&key_in(alloc, path, key)?, value),
        None => Ok(false),
    }
}

/// The width of the time shift, in units of time, under a key that the table of this path may leave out, none then:
/// none for false, 1 for true, or a number from 1 to 1,000,000. Errors: `WrongKind` of another value, `OutOfRange` of
/// another number; `Mem`.
pub fn width_or_none(
    alloc: Global,
    path: &Text,
    key: &str,
    table: &Json,
) -> Result<Option<u32>, ScenarioFault>
    ensures ok { IfOk result
        (λ width. keys.optional None (key_in path.now key.now) keys.some_width
        (member key.now table.now) ≡ Ok width) }
    ensures refused { IfErr result
        (λ e. IsFaultOf (keys.optional None (key_in path.now key.now) keys.some_width
        (member key.now table.now)) e) }
{
    match table.member(key) {
        Some(value) => values::width(alloc, &key_in(alloc, path, key)?, value),
        None => Ok(None),
    }
}

/// A copy of the table of values under a key that the table of this path may leave out, an empty one then: each number
/// in it is whole, and no value nests deeper than 100. Errors: `WrongKind` of a value that is no table, or by the first
/// key in it whose value is no such one; `Mem`.
pub fn values_or_none(
    alloc: Global,
    path: &Text,
    key: &str,
    table: &Json,
) -> Result<Json, ScenarioFault>
    ensures ok { IfOk result
        (λ t. keys.optional (tree.Object []) (key_in path.now key.now) keys.values
        (member key.now table.now) ≡ Ok t) }
    ensures refused { IfErr result
        (λ e. IsFaultOf (keys.optional (tree.Object []) (key_in path.now key.now) keys.values
        (member key.now table.now)) e) }
{
    match table.member(key) {
        Some(value) => Ok(values::values(alloc, &key_in(alloc, path, key)?, value)?.copy(alloc)?),
        None => Ok(Json::Object(Members::new(alloc))),
    }
}

/// The number from 1 to `most` under a key, itself of this path, that may be left out, and `instead` then. Errors:
/// `WrongKind` of another value, `OutOfRange` of another number; `Mem`.
pub fn count_or(
    alloc: Global,
    instead: u32,
    most: u32,
    path: &Text,
    key: &str,
    table: &Json,
) -> Result<u32, ScenarioFault>
    ensures ok { IfOk result
        (λ n. keys.optional instead path.now (keys.count_within 1 most) (member key.now table.now)
        ≡ Ok n) }
    ensures refused { IfErr result
        (λ e. IsFaultOf (keys.optional instead path.now (keys.count_within 1 most)
        (member key.now table.now)) e) }
{
    match table.member(key) {
        Some(value) => values::count_within(alloc, most, path, value),
        None => Ok(instead),
    }
}

/// The times under a key that the table of this path may leave out, none then: a list of numbers from 0 to
/// 1,000,000,000. Errors: `WrongKind` of another value, or of the first item that is no whole number, `OutOfRange` of
/// the first number that is another; `Mem`.
pub fn times_or_none(
    alloc: Global,
    path: &Text,
    key: &str,
    table: &Json,
) -> Result<List<i64>, ScenarioFault>
    ensures ok { IfOk result
        (λ ns. keys.optional [] (key_in path.now key.now)
        (keys.wholes_within (pos 0) latest_end) (member key.now table.now) ≡ Ok ns) }
    ensures refused { IfErr result
        (λ e. IsFaultOf (keys.optional [] (key_in path.now key.now)
        (keys.wholes_within (pos 0) latest_end) (member key.now table.now)) e) }
{
    match table.member(key) {
        Some(value) => values::times(alloc, &key_in(alloc, path, key)?, value),
        None => Ok(List::new(alloc)),
    }
}

/// The time, from 1 to 1,000,000,000, under a key that must stand in the top table. Errors: `Missing` without it,
/// `WrongKind` of another value, `OutOfRange` of another number; `Mem`.
pub fn required_time(alloc: Global, key: &str, document: &Json) -> Result<i64, ScenarioFault>
    ensures ok { IfOk result
        (λ n. keys.required key.now (keys.whole_within (pos 1) latest_end)
        (member key.now document.now) ≡ Ok n) }
    ensures refused { IfErr result
        (λ e. IsFaultOf (keys.required key.now (keys.whole_within (pos 1) latest_end)
        (member key.now document.now)) e) }
{
    let path = Text::of(alloc, key)?;
    match document.member(key) {
        Some(value) => values::whole_within(alloc, 1, LATEST_END, &path, value),
        None => Err(ScenarioFault::Missing(path)),
    }
}

/// The tables, from 1 to `most` of them, under a key that must stand in the top table. Errors: `Missing` without it,
/// `WrongKind` of another value, or of the first item that is no table, `OutOfRange` with how many there are where they
/// are none or more; `Mem`.
pub fn required_tables<'a>(
    alloc: Global,
    most: usize,
    key: &str,
    document: &'a Json,
) -> Result<&'a [Json], ScenarioFault>
    ensures ok { IfOk result
        (λ ts. keys.required key.now (keys.tables_within 1 most) (member key.now document.now)
        ≡ Ok ts.now) }
    ensures refused { IfErr result
        (λ e. IsFaultOf (keys.required key.now (keys.tables_within 1 most)
        (member key.now document.now)) e) }
{
    let path = Text::of(alloc, key)?;
    match document.member(key) {
        Some(value) => values::tables_within(alloc, 1, most, &path, value),
        None => Err(ScenarioFault::Missing(path)),
    }
}

/// The tables, at most `most` of them, under a key that the top table may leave out, none then. Errors: `WrongKind` of
/// another value, or of the first item that is no table, `OutOfRange` with how many there are where they are more;
/// `Mem`.
pub fn tables_or_none<'a>(
    alloc: Global,
    most: usize,
    key: &str,
    document: &'a Json,
) -> Result<&'a [Json], ScenarioFault>
    ensures ok { IfOk result
        (λ ts. keys.optional [] key.now (keys.tables_within 0 most) (member key.now document.now)
        ≡ Ok ts.now) }
    ensures refused { IfErr result
        (λ e. IsFaultOf (keys.optional [] key.now (keys.tables_within 0 most)
        (member key.now document.now)) e) }
{
    match document.member(key) {
        Some(value) => values::tables_within(alloc, 0, most, &Text::of(alloc, key)?, value),
        None => Ok(&[]),
    }
}
