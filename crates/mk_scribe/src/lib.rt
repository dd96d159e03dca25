//! Who looks on at a run and writes its record, line by line, while the run goes.
#![tactic(auto)]

mod handing;
mod laws;
mod scribe;
mod sheet;

pub use laws::drafts_are_records;
pub use scribe::{Left, Scribe};
