//! Calls of the program over a folder, sinks and a fleet in memory: what the stored cases, which run the built program,
//! can't do. The crate has tests alone.
#![tactic(auto)]

#[cfg(test)]
mod calls;
#[cfg(test)]
mod failing;
#[cfg(test)]
mod files;
#[cfg(test)]
mod fleets;
#[cfg(test)]
mod kinds;
#[cfg(test)]
mod pacing;
#[cfg(test)]
mod pieces;
#[cfg(test)]
mod saving;
