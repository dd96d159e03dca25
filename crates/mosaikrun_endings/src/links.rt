//! What is said of a link that ended, or on which no message came.
ghost use Rattle.std.specs.Prelude.{◌≡◌, [], OnOk};
ghost use Rattle.mosaikrun_endings.specs.Links.{text_of_link};

use crate::lines::{put, put_number};
use mk_base::Text;
use std::alloc::{AllocError, Global};

/// Why a simulator's link gives no message.
#[derive(Clone, Copy, Debug, PartialEq, Eq)]
pub enum LinkFault {
    /// The simulator closed it.
    Closed,
    /// The next frame has no message: this is the first, from 1, of the five tests of a payload that it fails.
    Garbled(u8),
    /// The next frame's header says that it has this many bytes, more than a frame may have.
    LongFrame(u32),
}

// Puts into an empty text what is said of the simulator of this id.
pub fn put_link(
    alloc: Global,
    out: &mut Vec<u8>,
    sim: &Text,
    fault: LinkFault,
) -> Result<(), AllocError>
    requires { out.old.items ≡ [] }
    ensures { OnOk result (out.new.items ≡ text_of_link sim.now fault) }
{
    match fault {
        LinkFault::Closed => {
            put(out, "run 5: ")?;
            put(out, sim.as_str())?;
            put(out, " closed its link")
        }
        LinkFault::Garbled(test) => {
            put(out, "run 6: ")?;
            put(out, sim.as_str())?;
            put(out, " sent no message (")?;
            put_number(alloc, out, test as u64)?;
            put(out, ")")
        }
        LinkFault::LongFrame(length) => {
            put(out, "run 7: ")?;
            put(out, sim.as_str())?;
            put(out, " frame of ")?;
            put_number(alloc, out, length as u64)?;
            put(out, " bytes")
        }
    }
}
