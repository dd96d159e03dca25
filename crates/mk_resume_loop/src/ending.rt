//! How a resumed run ends.
ghost use Rattle.std.specs.Prelude.{◌≡◌};

use mk_base::{Mem, SimNo};
use mk_plan::Message;
use mk_run::Outcome;

/// How a resumed run ends.
#[derive(Drop)]
pub enum ResumeEnd {
    /// As a run ends; `Done` where besides every simulator has sent all its saved messages again.
    Outcome(Outcome),
    /// The scenario's plan isn't the record's: the number of the first part that differs, by
    /// `mk_plan_same::plan_differs`.
    OtherPlan(u8),
    /// The record's entry of this number, from 0, isn't the journal's that its messages make.
    OtherEntry(u32),
    /// The simulator's message of this number, from 0 after its setup, isn't the saved one: `kept` is
    /// that one, and `heard` the one that came.
    Differs {
        sim: SimNo,
        place: u64,
        kept: Message,
        heard: Message,
    },
}

impl From<Mem> for ResumeEnd {
    ghost use Rattle.mk_run.specs.declared.outcome.Outcome.TheVariants as outcome;
    ghost use Rattle.mk_resume_loop.specs.declared.ending.ResumeEnd.TheVariants as ends;

    ghost from_gives = { λ _ e. e ≡ ends.Outcome outcome.Mem };

    fn from(_e: Mem) -> ResumeEnd {
        ResumeEnd::Outcome(Outcome::Mem)
    }
}

/// Why nobody is asked any more: a message is to come, or nothing is left to do.
#[derive(Drop)]
pub enum Pause {
    Waiting,
    Over,
}
