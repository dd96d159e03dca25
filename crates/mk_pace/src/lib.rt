//! A paced run: a run whose Steps wait for their moments on a clock that is handed in.
#![tactic(auto)]

mod pacing;

pub use mk_pace_laws::{Moment, PaceEnd, PaceRan, naps_are_well, paces_are_right, paces_complete};
pub use pacing::paced;
