//! A record that was read.
use mk_base::{List, SimNo, Tier};
use mk_plan::{Message, Plan};

/// A message, and the number of the simulator that it came from.
#[derive(Drop)]
pub struct Arrival {
    pub sim: SimNo,
    pub message: Message,
}

/// A step that a simulator was asked for: how many messages had come before, the simulator, the step's time, and the
/// time up to which nothing from outside triggers the simulator.
#[derive(Clone, Copy, Debug, PartialEq, Eq)]
pub struct Asked {
    pub before: u64,
    pub sim: SimNo,
    pub at: Tier,
    pub max_advance: i64,
}

/// What a record says: the plan of a run, the messages that came, in their order, and the steps that were asked for, in
/// theirs: `Some` in version 2, `None` in version 1.
#[derive(Drop)]
pub struct Saved {
    pub plan: Plan,
    pub arrivals: List<Arrival>,
    pub asks: Option<List<Asked>>,
}

// The lines of a record so far: the place of the last one's kind, the plan, the messages, and in version 2 the steps.
#[derive(Drop)]
pub struct Progress {
    pub last: u8,
    pub plan: Plan,
    pub arrivals: List<Arrival>,
    pub asks: Option<List<Asked>>,
}
