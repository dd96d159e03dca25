//! Frames over a stream of bytes: a header of four bytes and a payload.
#![tactic(auto)]

mod feeder;
mod header;
mod laws;
mod writing;

pub use feeder::{Feeder, Framed};
pub use laws::{any_cutting, frames_joined, no_frame_begins_another};
pub use writing::{PutFault, put_frame};
