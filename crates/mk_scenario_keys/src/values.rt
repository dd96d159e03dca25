//! What a value is, by its kind and range.
ghost use Rattle.std.specs.Prelude.{◌≡◌, ℕ, List, IfOk, IfErr, Ok, Some, option_map, not, pos};
ghost use Rattle.std.specs.List.{find};
ghost use Rattle.mk_base.specs.declared.json.Json.{Json};
ghost use Rattle.mk_base.specs.Trees.{is_datum};
ghost use Rattle.mk_scenario_keys.specs.Keys as keys;
ghost use Rattle.mk_scenario_keys.specs.Tests.{IsFaultOf, each_at, item_in};
ghost use Rattle.mk_base.specs.Limits.{latest_end};

use crate::fault::ScenarioFault;
use crate::paths::{count, digits, item_in, key_in};
use crate::spelling::{is_name, port_of};
use mk_base::{Json, LATEST_END, List, Members, Text, WIDEST};
use std::alloc::Global;

// The number, where it is in this range.
pub fn within(
    alloc: Global,
    least: i64,
    most: i64,
    path: &Text,
    n: i128,
) -> Result<i64, ScenarioFault>
    ensures ok { IfOk result (λ x. keys.within least most path.now n ≡ Ok x) }
    ensures refused { IfErr result (λ e. IsFaultOf (keys.within least most path.now n) e) }
{
    if i128::from(least) <= n && n <= i128::from(most) {
        Ok(n as i64)
    } else {
        Err(ScenarioFault::OutOfRange(path.copy()?, digits(alloc, n)?))
    }
}

// The whole number that the value is, in this range.
pub fn whole_within(
    alloc: Global,
    least: i64,
    most: i64,
    path: &Text,
    value: &Json,
) -> Result<i64, ScenarioFault>
    ensures ok { IfOk result (λ x. keys.whole_within least most path.now value.now ≡ Ok x) }
    ensures refused { IfErr result
        (λ e. IsFaultOf (keys.whole_within least most path.now value.now) e) }
{
    match value.as_whole() {
        Some(n) => within(alloc, least, most, path, n),
        None => Err(ScenarioFault::WrongKind(path.copy()?)),
    }
}

// The count that the value is, from 1 to this.
pub fn count_within(
    alloc: Global,
    most: u32,
    path: &Text,
    value: &Json,
) -> Result<u32, ScenarioFault>
    ensures ok { IfOk result (λ n. keys.count_within 1 most path.now value.now ≡ Ok n) }
    ensures refused { IfErr result
        (λ e. IsFaultOf (keys.count_within 1 most path.now value.now) e) }
{
    let n = whole_within(alloc, 1, i64::from(most), path, value)?;
    Ok(n as u32)
}

// The text that the value is.
pub fn text<'a>(path: &Text, value: &'a Json) -> Result<&'a Text, ScenarioFault>
    ensures ok { IfOk result (λ t. keys.text path.now value.now ≡ Ok t.now) }
    ensures refused { IfErr result (λ e. IsFaultOf (keys.text path.now value.now) e) }
{
    match value.as_text() {
        Some(text) => Ok(text),
        None => Err(ScenarioFault::WrongKind(path.copy()?)),
    }
}

// The truth value that the value is.
pub fn truth(path: &Text, value: &Json) -> Result<bool, ScenarioFault>
    ensures ok { IfOk result (λ b. keys.truth path.now value.now ≡ Ok b) }
    ensures refused { IfErr result (λ e. IsFaultOf (keys.truth path.now value.now) e) }
{
    match value.as_bool() {
        Some(truth) => Ok(truth),
        None => Err(ScenarioFault::WrongKind(path.copy()?)),
    }
}

// The width of the time shift that the value says, if it says one.
pub fn width(alloc: Global, path: &Text, value: &Json) -> Result<Option<u32>, ScenarioFault>
    ensures ok { IfOk result (λ width. keys.some_width path.now value.now ≡ Ok width) }
    ensures refused { IfErr result (λ e. IsFaultOf (keys.some_width path.now value.now) e) }
{
    match value.as_bool() {
        Some(shifted) => Ok(if shifted { Some(1) } else { None }),
        None => Ok(Some(count_within(alloc, WIDEST, path, value)?)),
    }
}

// The text that the value is, spelled as a name.
pub fn name<'a>(path: &Text, value: &'a Json) -> Result<&'a Text, ScenarioFault>
    ensures ok { IfOk result (λ t. keys.name path.now value.now ≡ Ok t.now) }
    ensures refused { IfErr result (λ e. IsFaultOf (keys.name path.now value.now) e) }
{
    let text = text(path, value)?;
    if is_name(text) {
        Ok(text)
    } else {
        Err(ScenarioFault::OutOfRange(path.copy()?, text.copy()?))
    }
}

// The port of the address on this machine that the value is.
pub fn port(path: &Text, value: &Json) -> Result<u16, ScenarioFault>
    ensures ok { IfOk result (λ port. keys.some_port path.now value.now ≡ Ok (Some port)) }
    ensures refused { IfErr result (λ e. IsFaultOf (keys.some_port path.now value.now) e) }
{
    let text = text(path, value)?;
    match port_of(text.as_str()) {
        Some(port) => Ok(port),
        None => Err(ScenarioFault::OutOfRange(path.copy()?, text.copy()?)),
    }
}

/// The list that the value at this path is. Errors: `WrongKind` of another value; `Mem`.
pub fn items<'a>(path: &Text, value: &'a Json) -> Result<&'a List<Json>, ScenarioFault>
    ensures ok { IfOk result (λ l. keys.items path.now value.now ≡ Ok l.now) }
    ensures refused { IfErr result (λ e. IsFaultOf (keys.items path.now value.now) e) }
{
    match value.as_list() {
        Some(items) => Ok(items),
        None => Err(ScenarioFault::WrongKind(path.copy()?)),
    }
}

// The value, which is a table.
pub fn table<'a>(path: &Text, value: &'a Json) -> Result<&'a Json, ScenarioFault>
    ensures ok { IfOk result (λ t. keys.table path.now value.now ≡ Ok t.now) }
    ensures refused { IfErr result (λ e. IsFaultOf (keys.table path.now value.now) e) }
{
    match value.as_object() {
        Some(_) => Ok(value),
        None => Err(ScenarioFault::WrongKind(path.copy()?)),
    }
}

/// The value, which is a table of whole values that don't nest too deep.
pub fn values<'a>(alloc: Global, path: &Text, value: &'a Json) -> Result<&'a Json, ScenarioFault>
    ensures ok { IfOk result (λ t. keys.values path.now value.now ≡ Ok t.now) }
    ensures refused { IfErr result (λ e. IsFaultOf (keys.values path.now value.now) e) }
{
    let params = table(path, value)?;
    match first_unfit(params) {
        Some(key) => Err(ScenarioFault::WrongKind(key_in(alloc, path, key.as_str())?)),
        None => Ok(params),
    }
}

// The first key of the table whose value is no datum.
fn first_unfit(table: &Json) -> Option<&Text>
    ensures { option_map (λ t. t.now) result ≡ keys.first_unfit table.now }
{
    match table.as_object() {
        Some(members) => first_unfit_of(members),
        None => None,
    }
}

fn first_unfit_of(members: &Members<Json>) -> Option<&Text>
    ensures { option_map (λ t. t.now) result
        ≡ option_map (λ (m : List ℕ × Json). m.0)
        (find (λ (m : List ℕ × Json). not (is_datum m.1)) members.now) }
{
    for (key, value) in members.entries() {
        if !value.is_datum() {
            return Some(key);
        }
    }
    None
}

// The times in the list that the value is, each from 0 to the latest.
pub fn times(alloc: Global, path: &Text, value: &Json) -> Result<List<i64>, ScenarioFault>
    ensures ok { IfOk result (λ ns. keys.wholes_within (pos 0) latest_end path.now value.now
        ≡ Ok ns) }
    ensures refused { IfErr result
        (λ e. IsFaultOf (keys.wholes_within (pos 0) latest_end path.now value.now) e) }
{
    let items = items(path, value)?;
    let numbers = wholes(alloc, path, items)?;
    all_times(alloc, path, &numbers)
}

fn wholes(alloc: Global, path: &Text, items: &List<Json>) -> Result<List<i128>, ScenarioFault>
    ensures ok { IfOk result
        (λ ns. each_at (λ i item. keys.whole (item_in path.now i) item) items.now ≡ Ok ns) }
    ensures refused { IfErr result
        (λ e. IsFaultOf (each_at (λ i item. keys.whole (item_in path.now i) item) items.now) e) }
{
    let mut numbers = List::new(alloc);
    for (i, item) in items.as_slice().iter().enumerate() {
        match item.as_whole() {
            Some(n) => numbers.push(n)?,
            None => return Err(ScenarioFault::WrongKind(item_in(alloc, path, i)?)),
        }
    }
    Ok(numbers)
}

fn all_times(alloc: Global, path: &Text, numbers: &List<i128>) -> Result<List<i64>, ScenarioFault>
    ensures ok { IfOk result
        (λ ns. each_at (λ i n.
        keys.within (pos 0) latest_end (item_in path.now i) n) numbers.now ≡ Ok ns) }
    ensures refused { IfErr result
        (λ e. IsFaultOf (each_at
        (λ i n. keys.within (pos 0) latest_end (item_in path.now i) n) numbers.now) e) }
{
    let mut found = List::new(alloc);
    for (i, n) in numbers.as_slice().iter().enumerate() {
        found.push(time_at(alloc, path, i, n)?)?;
    }
    Ok(found)
}

// The time that the number at a place of the list is.
fn time_at(alloc: Global, path: &Text, i: usize, n: &i128) -> Result<i64, ScenarioFault>
    ensures ok { IfOk result (λ x. keys.within (pos 0) latest_end (item_in path.now i) n.now
        ≡ Ok x) }
    ensures refused { IfErr result
        (λ e. IsFaultOf (keys.within (pos 0) latest_end (item_in path.now i) n.now) e) }
{
    within(alloc, 0, LATEST_END, &item_in(alloc, path, i)?, *n)
}

// The list of tables that the value is, of so many.
pub fn tables_within<'a>(
    alloc: Global,
    least: usize,
    most: usize,
    path: &Text,
    value: &'a Json,
) -> Result<&'a [Json], ScenarioFault>
    ensures ok { IfOk result (λ ts. keys.tables_within least most path.now value.now ≡ Ok ts.now) }
    ensures refused { IfErr result
        (λ e. IsFaultOf (keys.tables_within least most path.now value.now) e) }
{
    let items = items(path, value)?.as_slice();
    all_tables(alloc, path, items)?;
    if least <= items.len() && items.len() <= most {
        Ok(items)
    } else {
        Err(ScenarioFault::OutOfRange(path.copy()?, count(alloc, items.len())?))
    }
}

// Each item is a table.
fn all_tables(alloc: Global, path: &Text, items: &[Json]) -> Result<(), ScenarioFault>
    ensures ok { IfOk result
        (λ _. each_at (λ i item. keys.table (item_in path.now i) item) items.now ≡ Ok items.now) }
    ensures refused { IfErr result
        (λ e. IsFaultOf (each_at (λ i item. keys.table (item_in path.now i) item) items.now) e) }
{
    for (i, item) in items.iter().enumerate() {
        if !item.is_object() {
            return Err(ScenarioFault::WrongKind(item_in(alloc, path, i)?));
        }
    }
    Ok(())
}
