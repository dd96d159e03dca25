//! The command `blame`: two records of one plan are replayed, and the simulators that are to blame for their difference
//! are named. Which these are, and their text, is `mk_blame`'s.
#![tactic(auto)]

mod blaming;

pub use blaming::{blamed, records_have_one_blame};
