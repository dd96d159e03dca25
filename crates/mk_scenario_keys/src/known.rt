//! The keys that each kind of table has.
ghost use Rattle.std.specs.Prelude.{◌≡◌, ℕ, List, map, not, option_map};
ghost use Rattle.std.specs.List.{find};
ghost use Rattle.mk_base.specs.declared.json.Json.{Json};
ghost use Rattle.mk_scenario_keys.specs.Keys.{first_unknown};
ghost use Rattle.mk_scenario_keys.specs.Known.{keys_of};
ghost use Rattle.mk_base.specs.Lists.{is_among};

use mk_base::{Json, Members, Text};

const TOP_KEYS: [&str; 6] = [
    "until",
    "max_loop_iterations",
    "max_entries",
    "sim",
    "entities",
    "connect",
];

const SIM_KEYS: [&str; 6] = [
    "name",
    "command",
    "connect",
    "local",
    "params",
    "initial_events",
];

const GROUP_KEYS: [&str; 5] = ["id", "sim", "model", "num", "params"];

const BLOCK_KEYS: [&str; 7] = [
    "from",
    "to",
    "attrs",
    "time_shifted",
    "weak",
    "async_requests",
    "initial_data",
];

/// The tables of a scenario: the document itself, and those in its lists `sim`, `entities` and `connect`.
#[derive(Clone, Copy)]
pub enum Table {
    Top,
    Sim,
    Group,
    Block,
}

/// The first key of the value, in byte order, that such a table doesn't have; none of a value that is no table.
pub fn first_unknown(table: Table, value: &Json) -> Option<&Text>
    ensures { option_map (λ t. t.now) result ≡ first_unknown (keys_of table) value.now }
{
    match table {
        Table::Top => {
            let keys: [&str; 6] = TOP_KEYS;
            first_other(keys.as_slice(), value)
        }
        Table::Sim => {
            let keys: [&str; 6] = SIM_KEYS;
            first_other(keys.as_slice(), value)
        }
        Table::Group => {
            let keys: [&str; 5] = GROUP_KEYS;
            first_other(keys.as_slice(), value)
        }
        Table::Block => {
            let keys: [&str; 7] = BLOCK_KEYS;
            first_other(keys.as_slice(), value)
        }
    }
}

/// The first key of the value, in byte order, that is none of these; none of a value that is no table.
pub fn first_other<'a>(keys: &[&str], value: &'a Json) -> Option<&'a Text>
    ensures { option_map (λ t. t.now) result
        ≡ first_unknown (map (λ key. key.now) keys.now) value.now }
{
    match value.as_object() {
        Some(members) => first_other_of(keys, members),
        None => None,
    }
}

fn first_other_of<'a>(keys: &[&str], members: &'a Members<Json>) -> Option<&'a Text>
    ensures { option_map (λ t. t.now) result
        ≡ find (λ key. not (is_among (map (λ key. key.now) keys.now) key))
        (map (λ (m : List ℕ × Json). m.0) members.now) }
{
    for (key, _) in members.entries() {
        if !is_among(keys, key.as_str()) {
            return Some(key);
        }
    }
    None
}

// Whether the name is one of these keys.
fn is_among(keys: &[&str], name: &str) -> bool
    ensures { result ≡ is_among (map (λ key. key.now) keys.now) name.now }
{
    for key in keys {
        if *key == name {
            return true;
        }
    }
    false
}
