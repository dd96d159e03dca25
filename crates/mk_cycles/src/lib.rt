//! Ranks of simulators along edges, or a cycle.
#![tactic(auto)]

mod back;
mod listed;
mod places;
mod ranking;
mod table;

pub use ranking::{CycleFault, Edge, ranks};
