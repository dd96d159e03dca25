//! What is said of a simulator that can't be begun.
ghost use Rattle.std.specs.Prelude.{◌≡◌, [], ◌++◌, OnOk};
ghost use Rattle.mosaikrun_endings.specs.Launches.{text_of_launch};

use crate::lines::{put, put_number};
use mk_base::Text;
use mk_launch::LaunchFault;
use std::alloc::{AllocError, Global};

// Puts into an empty text what is said of the simulator of this id.
pub fn put_launch(
    alloc: Global,
    out: &mut Vec<u8>,
    sim: &Text,
    fault: &LaunchFault,
) -> Result<(), AllocError>
    requires { out.old.items ≡ [] }
    ensures { OnOk result (out.new.items ≡ text_of_launch sim.now fault.now) }
{
    match fault {
        LaunchFault::Empty => put_around(out, "launch 1: ", sim, " empty command"),
        LaunchFault::BadQuote(at) => {
            put_around(out, "launch 2: ", sim, " bad quote at ")?;
            put_number(alloc, out, *at)
        }
        LaunchFault::BadPlace(at) => {
            put_around(out, "launch 3: ", sim, " bad percent at ")?;
            put_number(alloc, out, *at)
        }
        LaunchFault::NoKind => put_around(out, "launch 4: ", sim, " unknown kind"),
        LaunchFault::Mem => put(out, "out of memory"),
    }
}

// Puts into an empty text an id between these words.
fn put_around(out: &mut Vec<u8>, words: &str, id: &Text, more: &str) -> Result<(), AllocError>
    requires { out.old.items ≡ [] }
    ensures { OnOk result (out.new.items ≡ words.now ++ id.now ++ more.now) }
{
    put(out, words)?;
    put(out, id.as_str())?;
    put(out, more)
}
