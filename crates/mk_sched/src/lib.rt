//! The scheduler's core: it keeps the journal of a run, and says what happens next.
#![tactic(auto)]

mod asking;
mod cores;
mod derived;
mod ending;
mod entries;
mod faults;
mod marks;
mod taking;

pub use cores::Core;
pub use faults::{CoreFault, Ended, Next, Taken};
