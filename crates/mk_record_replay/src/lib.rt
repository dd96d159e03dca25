//! The replay of a record: the messages that came in a run are given to a core, one after another, and each time
//! whoever is ready is asked before.
#![tactic(auto)]

mod asking;
mod ordering;
mod replaying;

pub use replaying::{ReplayEnd, Replayed, give_all, replay, replay_is_one};
