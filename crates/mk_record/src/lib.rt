//! Records, whole: what a record says is read, written, compared with a journal and replayed, and the texts of a journal are
//! written. The form of records, reports and summaries is in `docs/formats.md`, "Record", "Report" and "Summary". The
//! work is done in the crates named below.
//!
//! | Call | Gives | Else |
//! |---|---|---|
//! | `read_record` | what a record's bytes say, in version 1 or 2: a `Saved` | `RecordFault`: the line and the number of its first fault, or want of memory |
//! | `write_record` | the bytes of the record of a plan and of a journal, version 2 | want of memory |
//! | `first_other` | the number, from 0, of the first entry of a record that isn't the journal's; none of version 1 | |
//! | `replay` | a `Replayed`: how the replay of a record ends, its plan and its journal | want of memory |
//! | `write_report` | the report of a journal | want of memory |
//! | `write_summary` | its summary | want of memory |
#![tactic(auto)]

// Records read.
pub use mk_record_read::{Arrival, Asked, RecordFault, Saved, read_record};

// Records written.
pub use mk_record_write::write_record;

// A record and a journal.
pub use mk_record_compare::first_other;
pub use mk_record_replay::{ReplayEnd, Replayed, replay, replay_is_one};

// The texts of a journal.
pub use mk_record_report::{write_report, write_summary};
