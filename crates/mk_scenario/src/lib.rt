//! A scenario file: a TOML text that says which simulators there are, which entities they create, and how these are
//! connected.
#![tactic(auto)]

mod blocks;
mod groups;
mod names;
mod parts;
mod paths;
mod read;
mod references;
mod sims;
mod top;

// Why a text is no scenario stands with the keys' values.
pub use mk_scenario_keys::ScenarioFault;
pub use parts::{AttrPair, Begin, Block, Group, Place, Scenario, SimPart, id_of_sim};
pub use read::read_scenario;
