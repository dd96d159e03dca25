//! Messages of payloads that are written plainly, read without a parser of JSON.
#![tactic(auto)]

mod entities;
mod known;
mod message;
mod signs;

pub use known::Known;
pub use message::plain;
pub use signs::{before, behind, unsigned};
