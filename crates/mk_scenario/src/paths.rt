//! The paths of tables, and what a fault says beside a path.
ghost use Rattle.std.specs.Prelude.{◌≡◌, IfOk};
ghost use Rattle.mk_scenario_keys.specs.Tests.{item_in};

use mk_base::{Mem, Text};
use mk_scenario_keys::item_in;
use std::alloc::Global;

// The path of the table at place i under a key of the top table.
pub fn table_path(alloc: Global, key: &str, i: usize) -> Result<Text, Mem>
    ensures { IfOk result (λ path. path ≡ item_in key.now i) }
{
    item_in(alloc, &Text::of(alloc, key)?, i)
}

// A path and a text, for a fault.
pub fn path_and(alloc: Global, path: &Text, text: &str) -> Result<(Text, Text), Mem>
    ensures { IfOk result (λ both. both ≡ (path.now, text.now)) }
{
    Ok((path.copy()?, Text::of(alloc, text)?))
}
