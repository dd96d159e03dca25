//! The command `watch`: a record is replayed, and the tables of the watches that a file says are
//! written. What such a file says, and what its tables are, is `mk_watch`'s.
#![tactic(auto)]

mod watching;

pub use watching::{files_have_one_watch, tabled, watches_of};
