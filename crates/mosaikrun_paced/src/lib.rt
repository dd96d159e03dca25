//! The command `paced`: a run of a scenario over a fleet with a clock, each Step waiting for its moment; its report and
//! its record are those of a run.
#![tactic(auto)]

mod laws;
mod pacing;
mod sayings;

pub use laws::{paced_records_are_there, paced_texts_are_sequential, paces_are_one_text};
pub use pacing::paced_ran;
