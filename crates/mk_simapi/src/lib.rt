//! A simulator's side of the protocol: a simulator of one of the kinds is served over a link, and a program that is
//! one.
#![tactic(auto)]

mod forms;
mod gathering;
mod program;
mod requests;
mod servant;
mod served;
mod serving;

pub use program::child;
pub use served::Served;
pub use serving::serve;
