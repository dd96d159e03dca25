//! The command `check`: a scenario file is read and its simulators are ranked; nothing is started.
#![tactic(auto)]

mod checking;
mod text;

pub use checking::{checked, ranked, scenario_has_one_status, scenario_of};
