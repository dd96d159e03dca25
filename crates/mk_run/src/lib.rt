//! A run of a scenario over a fleet: the simulators are started, the handshake is made, and then whoever is ready is
//! asked and a message is heard, until nothing is left to do or something stands in the way.
#![tactic(auto)]

mod driving;
mod laws;
mod outcome;
mod running;
mod sending;
mod wholly;

pub use laws::{kinds_fit, runs_are_right, runs_complete, within_runs_end};
pub use outcome::{Outcome, Ran};
pub use running::run;
pub use sending::{send_at, send_last};
pub use wholly::run_local;
