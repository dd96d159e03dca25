//! Simulators within the program: their kinds, each with a body that answers the kind's row, and what such a simulator
//! replies.
#![tactic(auto)]

mod calls;
mod data;
mod entity;
mod inputs;
mod kind;
mod laws;
mod metadata;
mod names;
mod params;
mod registry;
mod sim;
mod steps;
mod trees;
mod turn;

pub use inputs::number_in;
pub use kind::Kind;
pub use laws::{metadata_is_accepted, numbers_are_read, replies_are_right};
pub use params::whole_from_to;
pub use registry::Registry;
pub use sim::LocalSim;
pub use turn::{
    EntityStep, EntityTurn, TURNS, Turn, battery_turn, constant_turn, controller_turn,
    counter_turn, relay_turn, sum_turn, turn_of,
};
