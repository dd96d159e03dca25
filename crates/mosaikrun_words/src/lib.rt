//! The words of the command line, and the requests that they are.
#![tactic(auto)]

mod arranged;
mod number;
mod reading;
mod request;
mod sorted;
mod words;

pub use request::{FileCommand, PairCommand, Request};
pub use words::read_words;
