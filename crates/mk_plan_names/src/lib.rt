//! The names of a plan's parts, found without going through the plan.
#![tactic(auto)]

mod index;
mod making;
mod names;

pub use index::Names;
