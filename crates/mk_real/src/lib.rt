//! Links over sockets and to child programs, with the machine's clock. No clause says what is said there.
#![tactic(auto)]

mod desk;
mod door;
mod errors;
mod fleet;
mod socket;
mod ticks;

pub use fleet::MioFleet;
