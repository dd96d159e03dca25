//! Why a crew doesn't go on.
ghost use Rattle.std.specs.Prelude.{◌≡◌};

use mk_base::{Mem, SimNo};
use mk_run_links::LinkHalt;
use mk_setup::SetupFault;

/// Why a crew didn't begin, sent no item, or hears nothing more; or want of memory.
#[derive(Drop)]
pub enum Halt {
    /// The handshake has a fault, which isn't want of memory.
    Setup(SetupFault),
    /// The fleet failed: its count of faults has risen.
    Fleet,
    /// The simulator's link has ended.
    Gone(SimNo),
    /// The next frame of the simulator's link has no message, by this test of `mk_message::read`.
    Garbled(SimNo, u8),
    /// The header of the next frame of the simulator's link gives this many bytes, more than 67,108,864.
    LongFrame(SimNo, u32),
    /// A payload to the simulator's link has so many bytes, more than 67,108,864.
    LongItem(SimNo, usize),
    Mem,
}

impl From<Mem> for Halt {
    ghost use Rattle.mk_run_crew.specs.declared.halt.Halt.TheVariants as halt;

    ghost from_gives = { λ _ e. e ≡ halt.Mem };

    fn from(_e: Mem) -> Halt {
        Halt::Mem
    }
}

// The halt that the links' halt is.
impl From<LinkHalt> for Halt {
    ghost use Rattle.mk_run_crew.specs.Calls.{halt_of};

    ghost from_gives = { λ why h. h ≡ halt_of why };

    fn from(why: LinkHalt) -> Halt {
        match why {
            LinkHalt::Fleet => Halt::Fleet,
            LinkHalt::Gone(sim) => Halt::Gone(sim),
            LinkHalt::Garbled(sim, test) => Halt::Garbled(sim, test),
            LinkHalt::LongFrame(sim, n) => Halt::LongFrame(sim, n),
            LinkHalt::Mem => Halt::Mem,
        }
    }
}
