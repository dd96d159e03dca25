//! The loop of a resumed run: each simulator is sent again what the journal has for it, its messages are compared with
//! the saved ones, and behind these the core takes them.
#![tactic(auto)]

mod behind;
mod catching;
mod ending;
mod resending;

pub use behind::Behind;
pub use catching::drive;
pub use ending::ResumeEnd;
pub use resending::begin;
