//! Which simulators are to blame that two finished runs of one plan differ: those that answered
//! equal requests differently.
#![tactic(auto)]

mod blaming;
mod comparing;
mod parting;
mod talks;
mod verdict;
mod writing;

pub use blaming::{blame, verdict_is_one};
pub use verdict::{Blamed, Verdict};
pub use writing::write_verdict;
