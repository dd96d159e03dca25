//! The outside itself: a child program and a port over loopback sockets, the clock, files, and a standard stream. The
//! crate has tests alone.
#![tactic(auto)]

#[cfg(test)]
mod files;
#[cfg(test)]
mod links;
