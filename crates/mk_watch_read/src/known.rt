//! The keys that may stand in a text of watches.
ghost use Rattle.std.specs.Prelude.{◌≡◌, option_map};
ghost use Rattle.mk_scenario_keys.specs.Keys.{first_unknown};
ghost use Rattle.mk_watch_read.specs.Watches.{keys_of};

use mk_base::{Json, Text};
use mk_scenario_keys::first_other;

const TOP_KEYS: [&str; 1] = ["watch"];

const WATCH_KEYS: [&str; 3] = ["entity", "attr", "rule"];

// The document itself, or a table of its list `watch`.
#[derive(Clone, Copy)]
pub enum Table {
    Top,
    Watch,
}

// The first key of the value, in byte order, that such a table doesn't have; none of a value that
// is no table.
pub fn first_unknown(table: Table, value: &Json) -> Option<&Text>
    ensures { option_map (λ t. t.now) result ≡ first_unknown (keys_of table) value.now }
{
    match table {
        Table::Top => {
            let keys: [&str; 1] = TOP_KEYS;
            first_other(keys.as_slice(), value)
        }
        Table::Watch => {
            let keys: [&str; 3] = WATCH_KEYS;
            first_other(keys.as_slice(), value)
        }
    }
}
