//! From a scenario and what its simulators said to a plan: which simulators connections put before which, and the plan
//! that its connections make.
#![tactic(auto)]

mod asyncs;
mod making;
mod ordering;
mod parts;
mod relations;

pub use making::plan;
pub use mk_connect_pairs::{ConnectFault, group_check};
pub use ordering::edges;
