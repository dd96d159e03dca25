//! What a core answers.
use mk_base::SimNo;

/// Why a run cannot go on.
///
/// `Wrong` is a wrong message, by its place among its simulator's messages, counted from 0, and the number of its cause
/// (`docs/rules.md`). `Failed` is a failure reply, by its place likewise. `LoopLimit` is a trigger beyond the limit of
/// a same-time loop: the simulator that it triggers, and the time, in the unit of the scenario. `TooLong` says that the
/// journal holds as many entries as the plan allows, that is `entries`, and that one more is needed.
#[derive(Clone, Copy, Debug, PartialEq, Eq)]
pub enum CoreFault {
    Wrong { sim: SimNo, place: u64, cause: u8 },
    Failed { sim: SimNo, place: u64 },
    LoopLimit { sim: SimNo, time: i64 },
    TooLong { entries: u32 },
}

/// What a core answers from some call on.
#[derive(Clone, Copy, Debug, PartialEq, Eq)]
pub enum Ended {
    Faulty(CoreFault),
    OutOfMemory,
}

/// What is to be done next: the simulator's Step, with which the journal now ends, is to be sent; a message is to be
/// waited for; nothing is left to do; or the run has met a fault.
#[derive(Clone, Copy, Debug, PartialEq, Eq)]
pub enum Next {
    Ask(SimNo),
    Wait,
    Done,
    Fault(CoreFault),
}

/// What follows a message: nothing is sent; what the journal now ends with is to be sent to the simulator that the
/// message came from; or the run has met a fault.
#[derive(Clone, Copy, Debug, PartialEq, Eq)]
pub enum Taken {
    Quiet,
    Send,
    Fault(CoreFault),
}
