//! Drafts: files that are written bit by bit, beside the files that they are for.
#![tactic(auto)]

mod drafts;

pub use drafts::{Begun, Drafts};
