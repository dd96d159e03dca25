//! The tests of a scenario's groups and connections, and the connections that pass them: models and entities by their
//! numbers, and what a block pairs.
#![tactic(auto)]

mod attributes;
mod connections;
mod ends;
mod fault;
mod groups;
mod made;
mod members;
mod models;
mod numbers;
mod study;

pub use connections::{block_pairs, conns_made};
pub use fault::ConnectFault;
pub use groups::group_check;
pub use made::Made;
pub use members::members_of;
pub use models::SimModel;
pub use numbers::{Models, models_of, numbers_of};
pub use study::{Study, number_at};
