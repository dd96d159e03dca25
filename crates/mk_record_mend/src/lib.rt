//! Records that were cut short, mended: their whole lines, and the `end` line that they lack.
#![tactic(auto)]

mod laws;
mod mending;

pub use laws::{cut_records_are_read, mended_is_read, other_faults_stay, whole_records_are_left};
pub use mending::mend;
