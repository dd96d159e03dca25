//! Runs whose steps wait for a clock in memory: what is said on the links and when, what is printed and recorded, and
//! what waits meanwhile. The crate has tests alone.
#![tactic(auto)]

#[cfg(test)]
mod advance;
#[cfg(test)]
mod moments;
#[cfg(test)]
mod pacing;
#[cfg(test)]
mod rows;
#[cfg(test)]
mod waiting;
