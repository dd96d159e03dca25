//! A run that was cut short goes on: its simulators are started anew, its record's messages are
//! given to a new core, and each simulator is sent again what the journal has for it and sends its
//! messages again, until it has caught up.
#![tactic(auto)]

mod accepting;
mod laws;
mod resuming;
mod wholly;

pub use laws::{
    done_resumed_runs_are_runs, resume_ends_exactly, resumed_runs_complete, resumed_runs_say_right,
    runs_and_resumed_runs_are_alike,
};
pub use mk_resume_loop::ResumeEnd;
pub use resuming::{ResumeRan, resume};
