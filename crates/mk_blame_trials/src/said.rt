//! What is said of two records.

use mk_base::Mem;
use mosaikrun_blame::blamed;
use mosaikrun_endings::Ending;
use mosaikrun_records::saved_of;
use mosaikrun_samples::is_wanted;
use std::alloc::Global;

fn outcome(alloc: Global, first: &[u8], second: &[u8]) -> Result<Vec<u8>, Ending> {
    let one = saved_of(alloc, first)?;
    let other = saved_of(alloc, second)?;
    blamed(alloc, one, other)
}

/// Whether this text is said of two records, or else this line, which says why there is none.
pub fn is_said(alloc: Global, first: &[u8], second: &[u8], wanted: &str) -> Result<bool, Mem> {
    let outcome = outcome(alloc, first, second);
    is_wanted(alloc, &outcome, wanted)
}
