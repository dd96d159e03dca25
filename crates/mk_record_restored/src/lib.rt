//! The core of a run that goes on from a record: it has taken the record's messages as a replay does,
//! and its journal begins with all that the record has.
#![tactic(auto)]

mod restoring;

pub use restoring::{Restored, restore, restored_is_one};
