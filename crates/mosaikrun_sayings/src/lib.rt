//! Which ending a fault is, of the handshake or of the core: simulators are named by their ids, a failure by its text.
#![tactic(auto)]

mod sayings;
mod stopping;

pub use sayings::{id_in, ids_of, setup_ending};
pub use stopping::stopped;
