//! A crew: the links of a run and its simulators within the program together, from their start to their stop.
#![tactic(auto)]

mod asking;
mod beginning;
mod crew;
mod halt;
mod laws;
mod wholly;

pub use crew::Crew;
pub use halt::Halt;
pub use laws::{
    answered_handshakes_are_faultless, handshakes_complete, within_handshakes_are_faultless,
};
pub use wholly::is_wholly_within;
