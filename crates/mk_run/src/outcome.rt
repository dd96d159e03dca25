//! How a run ends, and what it comes to.
ghost use Rattle.std.specs.Prelude.{◌≡◌};

use mk_base::{Mem, SimNo};
use mk_plan::{Journal, Plan};
use mk_run_crew::Halt;
use mk_sched::CoreFault;
use mk_setup::SetupFault;

/// How a run ends; `Mem` is want of memory.
#[derive(Drop)]
pub enum Outcome {
    /// Nothing is left to do.
    Done,
    /// The handshake has a fault, which isn't want of memory.
    Setup(SetupFault),
    /// The core met a fault: a wrong message, a failure, the loop limit or the limit of entries.
    Core(CoreFault),
    /// The fleet failed: its count of faults has risen.
    Fleet,
    /// The simulator's link has ended.
    Gone(SimNo),
    /// The next frame of the simulator's link has no message, by this test of `mk_message::read`.
    Garbled(SimNo, u8),
    /// The header of the next frame of the simulator's link gives this many bytes, more than 67,108,864.
    LongFrame(SimNo, u32),
    /// A payload to the simulator's link has so many bytes, more than 67,108,864.
    LongItem(SimNo, usize),
    Mem,
}

impl From<Mem> for Outcome {
    ghost use Rattle.mk_run.specs.declared.outcome.Outcome.TheVariants as outcome;

    ghost from_gives = { λ _ e. e ≡ outcome.Mem };

    fn from(_e: Mem) -> Outcome {
        Outcome::Mem
    }
}

// The outcome that a halt of the crew is.
impl From<Halt> for Outcome {
    ghost use Rattle.mk_run.specs.Outcomes.{outcome_of};

    ghost from_gives = { λ halt e. e ≡ outcome_of halt };

    fn from(halt: Halt) -> Outcome {
        match halt {
            Halt::Setup(fault) => Outcome::Setup(fault),
            Halt::Fleet => Outcome::Fleet,
            Halt::Gone(sim) => Outcome::Gone(sim),
            Halt::Garbled(sim, test) => Outcome::Garbled(sim, test),
            Halt::LongFrame(sim, n) => Outcome::LongFrame(sim, n),
            Halt::LongItem(sim, n) => Outcome::LongItem(sim, n),
            Halt::Mem => Outcome::Mem,
        }
    }
}

/// What a run comes to: how it ends, and its plan and its journal, which are both there or both not.
#[derive(Drop)]
pub struct Ran {
    pub outcome: Outcome,
    pub plan: Option<Plan>,
    pub journal: Option<Journal>,
}
