//! Compares: two plans, which of their parts is the first that isn't the same; and parts of what is sent.
#![tactic(auto)]

mod parts;
mod plans;
mod same;

pub use plans::plan_differs;
pub use same::{Same, same_all};
