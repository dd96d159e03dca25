//! Records read: from a text of lines to the plan of a run, the messages that came, and the steps that were asked for.
#![tactic(auto)]

mod faults;
mod fields;
mod kinds;
mod lines;
mod parts;
mod plainly;
mod read;
mod rooms;
mod saved;

pub use faults::RecordFault;
pub use read::read_record;
pub use saved::{Arrival, Asked, Saved};
