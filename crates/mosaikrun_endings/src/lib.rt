//! How the program ends otherwise than with the text that a command prints: by one ending, with its status and its
//! line.
#![tactic(auto)]

mod ending;
mod launch;
mod lines;
mod links;
mod scenario;
mod setup;
mod watches;

pub use ending::Ending;
pub use links::LinkFault;
pub use setup::SetupEnding;
