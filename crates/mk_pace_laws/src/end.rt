//! How a paced run ends, and what it comes to.
use mk_base::{List, SimNo, Tier};
use mk_plan::{Journal, Plan};
use mk_run::Outcome;

/// How a paced run ends: as a run does, or because a Step is later than is allowed.
#[derive(Drop)]
pub enum PaceEnd {
    Outcome(Outcome),
    /// The Step of this simulator at this time was to be sent next, so many milliseconds after its
    /// moment, which is more than are allowed.
    Late {
        sim: SimNo,
        time: i64,
        late: u64,
        allowed: u64,
    },
}

/// A Step that was sent: its simulator and time, its moment, and a number that the clock told, no less
/// than the moment, both in milliseconds of the clock.
#[derive(Clone, Copy, Debug, PartialEq, Eq)]
pub struct Moment {
    pub sim: SimNo,
    pub at: Tier,
    pub moment: u64,
    pub told: u64,
}

/// What a paced run comes to: how it ends, its plan and its journal, which are both there or both
/// not, and the moments of the Steps that were sent, in their order.
#[derive(Drop)]
pub struct PaceRan {
    pub end: PaceEnd,
    pub plan: Option<Plan>,
    pub journal: Option<Journal>,
    pub moments: List<Moment>,
}
