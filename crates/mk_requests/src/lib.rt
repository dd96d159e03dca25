//! Ids of requests on a link, of which at most one awaits its answer.
#![tactic(auto)]

mod numbers;

pub use numbers::{Answered, Numbers};
