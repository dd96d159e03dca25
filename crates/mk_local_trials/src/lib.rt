//! Simulators within the program: the turns of the six kinds, and two of them stored as a program's `main` stores them.
//! The crate has tests alone.
#![tactic(auto)]

#[cfg(test)]
mod kinds;
