//! What is said between the program and its simulators, and what it is made of: values, trees, frames, messages, the
//! ids of requests, metadata and entities. The crate has tests alone.
#![tactic(auto)]

#[cfg(test)]
mod entities;
#[cfg(test)]
mod frames;
#[cfg(test)]
mod messages;
#[cfg(test)]
mod metadata;
#[cfg(test)]
mod numbers;
#[cfg(test)]
mod texts;
#[cfg(test)]
mod trees;
#[cfg(test)]
mod values;
