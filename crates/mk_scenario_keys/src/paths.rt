//! The paths of keys, and numbers as texts.
ghost use Rattle.std.specs.Prelude.{◌≡◌, IfOk};
ghost use Rattle.std.specs.Fmt.{decimal, signed_decimal};
ghost use Rattle.mk_scenario_keys.specs.Tests.{key_in, item_in};

use itoa::Buffer;
use mk_base::{Mem, Text};
use std::alloc::Global;

/// The path of a key in the table of that path: `PATH.KEY`.
pub fn key_in(alloc: Global, path: &Text, key: &str) -> Result<Text, Mem>
    ensures { IfOk result (λ t. t ≡ key_in path.now key.now) }
{
    let path = path.as_str();
    let text = format!(in alloc; "{path}.{key}")?;
    Text::of(alloc, text.as_str())
}

/// The path of the item at a place, from 0, of the list of that path: `PATH[PLACE]`.
pub fn item_in(alloc: Global, path: &Text, i: usize) -> Result<Text, Mem>
    ensures { IfOk result (λ t. t ≡ item_in path.now i) }
{
    let path = path.as_str();
    let text = format!(in alloc; "{path}[{i}]")?;
    Text::of(alloc, text.as_str())
}

// A number's decimal digits.
pub fn digits(alloc: Global, n: i128) -> Result<Text, Mem>
    ensures { IfOk result (λ t. t ≡ signed_decimal n) }
{
    let mut buffer = Buffer::new();
    Text::of(alloc, buffer.format(n))
}

// A count's decimal digits.
pub fn count(alloc: Global, n: usize) -> Result<Text, Mem>
    ensures { IfOk result (λ t. t ≡ decimal n) }
{
    let mut buffer = Buffer::new();
    Text::of(alloc, buffer.format(n))
}
