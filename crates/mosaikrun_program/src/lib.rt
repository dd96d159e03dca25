//! All that the program mosaikrun does, over a folder, a fleet and two sinks: reads the words, and does what they ask.
#![tactic(auto)]

mod commands;
mod drafting;
mod handing;
mod top;

pub use top::program;
