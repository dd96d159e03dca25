//! What several crates of tests need: simulators' messages over links in memory, what a run comes to as a text, a
//! counter, and how many rows are right.
#![tactic(auto)]

mod counter;
mod fleets;
mod outcomes;
mod rows;
mod scripts;

pub use counter::{COUNTER, RECORD, STOP, TALK, TEXT, counter_requests};
pub use fleets::{said_on, willing};
pub use outcomes::{Outcome, is_both, is_wanted, outcome_of, refused};
pub use rows::count_right;
pub use scripts::{
    Exchange, When, frames_of, length_of, once, push_chunk, push_frame, push_reply, replies_of,
    requests_length, requests_of,
};
