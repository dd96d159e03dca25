//! Records that are written while a run goes, into a sink that fails. The crate has only tests.
#![tactic(auto)]

#[cfg(test)]
mod drafts;
