//! From a record's bytes to its report, or why there is none.
ghost use Rattle.std.specs.Prelude.{◌≡◌, ℕ, List, Option, Result, Err, IfOk, IfErr};
ghost use Rattle.mosaikrun_endings.specs.declared.ending.Ending.{Ending};
ghost use Rattle.mosaikrun_endings.specs.declared.ending.Ending.TheVariants as ends;
ghost use Rattle.mosaikrun_records.specs.Reports.{IsOutcome, IsReportOf, Unreported};

use crate::saved::{finished, saved_of};
use mk_record::write_report;
use mosaikrun_endings::Ending;
use std::alloc::Global;

/// The report of a record that is replayed in this order, or as its messages came; or why there is none: the bytes are
/// no record, the replay isn't done, or memory is wanting.
pub fn reported(alloc: Global, bytes: &[u8], order: Option<u32>) -> Result<Vec<u8>, Ending>
    ensures report { IfOk result (λ text. IsReportOf bytes.now order text.items) }
    ensures none { IfErr result (λ e. Unreported bytes.now order e) }
{
    let saved = saved_of(alloc, bytes)?;
    let replayed = finished(alloc, saved, order)?;
    Ok(write_report(alloc, &replayed.plan, &replayed.journal)?)
}

/// One record has one outcome in each order, want of memory aside: two texts or endings that `replay` may answer of the
/// same bytes in the same order are the same. And it has one report: two texts that it may answer are the same,
/// whatever the orders.
pub fn record_has_one_outcome()
    ensures outcome { (bytes : List ℕ) → (order : Option ℕ) → (o : Result (List ℕ) Ending)
        → (p : Result (List ℕ) Ending)
        → IsOutcome bytes order o → IsOutcome bytes order p → (o ≡ Err ends.Mem → ⊥)
        → (p ≡ Err ends.Mem → ⊥) → o ≡ p }
    ensures report { (bytes : List ℕ) → (order : Option ℕ) → (other : Option ℕ) → (text : List ℕ)
        → (same : List ℕ)
        → IsReportOf bytes order text → IsReportOf bytes other same → text ≡ same }
{}
