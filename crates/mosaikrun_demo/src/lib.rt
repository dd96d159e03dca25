//! The command `demo`: the demo scenario is run over a fleet, and its summary written.
#![tactic(auto)]

mod laws;
mod summing;

pub use laws::no_link_is_named;
pub use summing::summed;
