//! The values of connections and of asynchronous requests: what names stand for, what is delivered, and what a step or
//! a request gets of it. The crate has tests alone.
#![tactic(auto)]

#[cfg(test)]
mod buffers;
#[cfg(test)]
mod common;
#[cfg(test)]
mod names;
#[cfg(test)]
mod requests;
#[cfg(test)]
mod stock;
