//! What a run has asked for and not sent yet: Steps that wait for their moments, and what stands behind them.
#![tactic(auto)]

mod held;
mod holds;
mod queue;
mod tree;

pub use held::{Due, First, Held};
pub use holds::Holds;
