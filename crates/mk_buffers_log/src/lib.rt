//! The outputs of one attribute of an entity: the one that counts at a time, by a connection's delay, and the giving up
//! of those that no question can reach any more.
#![tactic(auto)]

mod delays;
mod log;
mod made;

pub use delays::{Delay, is_since};
pub use log::Log;
pub use made::Made;
