//! The report of a journal, which shows what each simulator was sent, and its summary.
#![tactic(auto)]

mod lines;
mod parts;
mod report;
mod summary;
mod tallies;

pub use report::write_report;
pub use summary::write_summary;
