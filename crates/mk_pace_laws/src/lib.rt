//! What a paced run means, how it ends, and what holds of each one: definitions and laws, no run.
#![tactic(auto)]

mod end;
mod laws;

pub use end::{Moment, PaceEnd, PaceRan};
pub use laws::{naps_are_well, paces_are_right, paces_complete};
