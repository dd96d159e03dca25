//! Trees and data by their texts.
ghost use Rattle.std.specs.Prelude.{◌≡◌, true};
ghost use Rattle.mk_base.specs.Trees.{is_in_range};

use mk_base::{Datum, Json, Mem};
use mk_json::{datum, read_json};
use std::alloc::Global;

// The tree of a text, or `Odd` where it is no JSON.
pub fn tree_of(alloc: Global, text: &str) -> Json
    ensures { is_in_range result ≡ true }
{
    match read_json(alloc, text.as_bytes()) {
        Ok(tree) => tree,
        Err(_) => Json::Odd,
    }
}

// The datum of a text.
pub fn datum_of(alloc: Global, text: &[u8]) -> Result<Datum, Mem> {
    match read_json(alloc, text) {
        Ok(tree) => match datum(alloc, &tree) {
            Ok(datum) => Ok(datum),
            Err(_) => Err(Mem),
        },
        Err(_) => Err(Mem),
    }
}
