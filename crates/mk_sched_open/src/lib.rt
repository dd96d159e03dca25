//! What is open at each simulator of a run, the ids of its requests, and how many of its messages were right.
#![tactic(auto)]

mod laws;
mod sims;

pub use laws::ends_of_turns;
pub use sims::{Sim, Sims};
