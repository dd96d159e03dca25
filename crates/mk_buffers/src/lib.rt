//! The values that connections hold, the inputs of a step that are taken from them, and the giving up of values that no
//! question can reach any more.
#![tactic(auto)]

mod buffers;
mod delivering;
mod forgetting;
mod gifts;
mod inlets;
mod laws;
mod marks;
mod names;
mod outlets;
mod questions;
mod sets;
mod sorted;
mod tables;

pub use buffers::Buffers;
pub use laws::buffers_stand;
