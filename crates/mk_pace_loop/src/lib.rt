//! The loop of a paced run: whoever is ready is asked, what is due is sent, and a message is taken
//! or the fleet sleeps.
#![tactic(auto)]

mod pacing;
mod sending;
mod waiting;

pub use pacing::drive;
pub use waiting::Waiting;
