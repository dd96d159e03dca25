//! What is said of a record and a file of watches.

use crate::records::{Recorded, text_of};
use mk_base::Mem;
use mk_watch::Rules;
use mosaikrun_endings::Ending;
use mosaikrun_records::saved_of;
use mosaikrun_samples::is_wanted;
use mosaikrun_watch::{tabled, watches_of};
use std::alloc::Global;

/// A record, a file of watches, and the tables, or the line that says why there are none.
pub type Row = (Recorded, &'static str, &'static str);

fn outcome(
    alloc: Global,
    rules: &Rules,
    recorded: Recorded,
    spec: &str,
) -> Result<Vec<u8>, Ending> {
    let saved = saved_of(alloc, text_of(recorded).as_bytes())?;
    let watches = watches_of(alloc, rules, &saved, spec.as_bytes())?;
    tabled(alloc, rules, saved, watches)
}

fn is_said(alloc: Global, rules: &Rules, row: Row) -> Result<bool, Mem> {
    let (recorded, spec, wanted) = row;
    let outcome = outcome(alloc, rules, recorded, spec);
    is_wanted(alloc, &outcome, wanted)
}

/// The first row, counted from 0, of which something else is said.
pub fn first_other(alloc: Global, rules: &Rules, rows: &[Row]) -> Result<Option<usize>, Mem> {
    for (place, row) in rows.iter().enumerate() {
        if !is_said(alloc, rules, *row)? {
            return Ok(Some(place));
        }
    }
    Ok(None)
}
