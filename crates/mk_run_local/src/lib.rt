//! The simulators within the program during a run, and the replies of theirs that are kept until they are heard.
#![tactic(auto)]

mod laws;
mod within;

pub use laws::{kinds_are_right, replies_are_kinds};
pub use within::Within;
