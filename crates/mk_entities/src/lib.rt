//! The entities that simulators create, as their replies to `create` describe them.
#![tactic(auto)]

mod described;
mod entities;
mod fault;
mod making;
mod names;
mod trees;

pub use entities::{Entities, EntityInfo};
pub use fault::CreateFault;
pub use making::listed;
