//! A run's progress: who is shown its journal beside its scribe, and puts a line that tells how far it is.
#![tactic(auto)]

mod both;
mod due;
mod line;
mod progress;
mod stopwatch;
mod tally;

pub use both::{Both, both_are_shown};
pub use line::ProgressLine;
pub use progress::Progress;
pub use stopwatch::Stopwatch;
