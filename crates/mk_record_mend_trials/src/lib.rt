//! Records that are mended. The crate has tests alone.
#![tactic(auto)]

#[cfg(test)]
mod texts;
