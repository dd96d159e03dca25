//! How a scenario's simulators are begun: the words of a command's template, what can't be begun, and the start of all.
#![tactic(auto)]

mod faults;
mod marks;
mod preparing;
mod reader;
mod starting;
mod template;

pub use faults::{LaunchFault, StartFault, Unready};
pub use preparing::prepare;
pub use starting::start_all;
pub use template::words;
