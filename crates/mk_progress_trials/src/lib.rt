//! Lines of progress, with a clock that tells listed readings, into a sink that fails. The crate has only tests.
#![tactic(auto)]

#[cfg(test)]
mod lines;
