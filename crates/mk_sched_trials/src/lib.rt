//! The core and what it stands on: plans that are valid, messages that are right, bounds, steps that are pending,
//! turns, and a run of two simulators. The crate has tests alone.
#![tactic(auto)]

#[cfg(test)]
mod agenda;
#[cfg(test)]
mod bounds;
#[cfg(test)]
mod common;
#[cfg(test)]
mod cores;
#[cfg(test)]
mod judging;
#[cfg(test)]
mod messages;
#[cfg(test)]
mod queue;
#[cfg(test)]
mod turns;
#[cfg(test)]
mod validity;
