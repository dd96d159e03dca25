//! What a run's links answer.
ghost use Rattle.std.specs.Prelude.{◌≡◌};

use mk_base::{Mem, SimNo};
use mk_plan::Message;
use mk_session::{Heard, QueueFault};

/// Why nothing more is heard on a run's links; or want of memory.
#[derive(Clone, Copy)]
pub enum LinkHalt {
    /// The fleet failed: its count of faults has risen.
    Fleet,
    /// The simulator's link has ended, and no whole frame is left.
    Gone(SimNo),
    /// The next frame of the simulator's link has no message, by this test of `mk_message::read`.
    Garbled(SimNo, u8),
    /// The header of the next frame of the simulator's link gives this many bytes, more than 67,108,864.
    LongFrame(SimNo, u32),
    Mem,
}

impl From<Mem> for LinkHalt {
    ghost use Rattle.mk_run_links.specs.declared.answers.LinkHalt.TheVariants as halt;

    ghost from_gives = { λ _ e. e ≡ halt.Mem };

    fn from(_e: Mem) -> LinkHalt {
        LinkHalt::Mem
    }
}

// What came of a look at the link that has been ready for longest.
#[derive(Drop)]
pub enum Looked {
    Heard(SimNo, Heard),
    Parked,
    // No link is ready: all are parked.
    Quiet,
}

// What came of looks at links, each in its turn.
#[derive(Drop)]
pub enum Listened {
    Message(SimNo, Message),
    Halted(LinkHalt),
    // Nothing has come: all links are parked.
    Quiet,
}
