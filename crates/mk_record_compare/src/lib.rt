//! Compares a record with a journal: which of the record's entries is the first that isn't the journal's. And whether
//! two messages, or two trees, are the same.
#![tactic(auto)]

mod first;
mod messages;
mod trees;

pub use first::{first_other, first_other_step};
pub use messages::same_message;
pub use trees::same_tree;
