//! Small plans that several crates of tests run.
#![tactic(auto)]

mod plans;

pub use plans::{
    OUT_TO_IN, Tie, Who, connections, entities, entity, models, number, plan_of, simulator,
    two_simulators,
};
