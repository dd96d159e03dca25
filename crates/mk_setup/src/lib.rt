//! The handshake with the simulators of a scenario: which request is to be made next, what its reply adds, and at the
//! end the plan of the run. It knows replies alone, no link.
#![tactic(auto)]

mod answers;
mod asking;
mod calls;
mod counts;
mod fault;
mod handshake;
mod laws;
mod planning;
mod progress;
mod repeated;
mod stage;
mod taking;

pub use answers::SetupNext;
pub use fault::SetupFault;
pub use handshake::Setup;
pub use laws::replies_make;
