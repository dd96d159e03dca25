//! Records written: the plan of a run, the steps that were asked for and the messages that came, as a text of lines.
#![tactic(auto)]

mod entries;
mod fields;
mod parts;
mod record;

pub use entries::{line_count, put_entries};
pub use parts::put_plan;
pub use record::write_record;
