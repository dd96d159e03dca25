//! A scenario is run over a fleet, its report or its summary is written, and its record where one is wanted; by the
//! command `run` it is read from a file.
#![tactic(auto)]

mod laws;
mod running;
mod sayings;

pub use laws::{alike_is_one_text, records_are_there, texts_are_sequential, within_is_one_text};
pub use running::{Accepted, Told, accept, played, ran, unrun};
pub use sayings::{Form, saying};
