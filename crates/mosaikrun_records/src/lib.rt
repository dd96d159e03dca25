//! The commands on records: `replay`, a record is read and replayed, and its report is written; `migrate`, the record
//! of that replay is written. And what the other commands on records begin with: a record is read (`saved_of`), and
//! replayed until all is done (`finished`).
#![tactic(auto)]

mod migrating;
mod replaying;
mod saved;

pub use migrating::{migrated, record_has_one_migration};
pub use replaying::{record_has_one_outcome, reported};
pub use saved::{finished, saved_of};
