//! The command `resume`: a run of a scenario that was cut short goes on from its record over a fleet whose simulators
//! are started anew; its report and its record are those of the whole run.
#![tactic(auto)]

mod laws;
mod resuming;
mod sayings;

pub use laws::{resumed_texts_are_sequential, same_messages_are_one_text};
pub use resuming::{Study, resumed, study_of};
