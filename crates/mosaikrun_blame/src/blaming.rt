//! From two records to the text that says who is to blame for their difference, or why there is none.
ghost use Rattle.std.specs.Prelude.{◌≡◌, ℕ, List, None, Result, Ok, Err, All, map, IfOk, IfErr};
ghost use Rattle.mk_plan.specs.Plans.{IsValidPlan};
ghost use Rattle.mk_plan.specs.Journals.{arrivals};
ghost use Rattle.mk_record.specs.Reading.{reading, Said};
ghost use Rattle.mk_record.specs.Seen.{came};
ghost use Rattle.mk_record.specs.Steps.{IsKnown};
ghost use Rattle.mk_plan_same.specs.Parts.{IsFirstOther};
ghost use Rattle.mosaikrun_endings.specs.declared.ending.Ending.{Ending};
ghost use Rattle.mosaikrun_endings.specs.declared.ending.Ending.TheVariants as ends;
ghost use Rattle.mosaikrun_records.specs.Saved.{ReplaysTo};
ghost use Rattle.mosaikrun_blame.specs.Blames.{IsBlameOutcome};
ghost use Rattle.mosaikrun_blame.specs.inner.Pairs.{IsComparison, IsVerdictText, IsWholeOf};

use mk_base::Mem;
use mk_blame::{blame, write_verdict};
use mk_plan_same::plan_differs;
use mk_record::{Replayed, Saved};
use mosaikrun_endings::Ending;
use mosaikrun_records::finished;
use std::alloc::Global;

/// The text that names the simulators that are to blame that two records differ; or why there is none.
/// The first record is replayed, then the second, each as its messages came; the first replay that
/// isn't done gives its ending. Then `Ending::OtherPlan` names the first part, from 1, in which the
/// plans differ; the limit of entries is no part. `Ending::Mem` is want of memory.
pub fn blamed(alloc: Global, first: Saved, second: Saved) -> Result<Vec<u8>, Ending>
    requires first_valid { IsValidPlan first.plan }
    requires first_known { All (IsKnown first.plan) (map came first.arrivals) }
    requires second_valid { IsValidPlan second.plan }
    requires second_known { All (IsKnown second.plan) (map came second.arrivals) }
    ensures text { (one : List ℕ) → (other : List ℕ)
        → reading one ≡ Said first.plan (map came first.arrivals) first.asks
        → reading other ≡ Said second.plan (map came second.arrivals) second.asks
        → IfOk result (λ text. IsBlameOutcome one other (Ok text.items)) }
    ensures none { (one : List ℕ) → (other : List ℕ)
        → reading one ≡ Said first.plan (map came first.arrivals) first.asks
        → reading other ≡ Said second.plan (map came second.arrivals) second.asks
        → IfErr result (λ ending. IsBlameOutcome one other (Err ending)) }
{
    let replayed = finished(alloc, first, None)?;
    compared_with(alloc, &replayed, second)
}

// Replays the second record, and compares it with the first one's replay, which is done.
fn compared_with(alloc: Global, one: &Replayed, second: Saved) -> Result<Vec<u8>, Ending>
    requires valid { IsValidPlan one.now.plan }
    requires known { All (IsKnown one.now.plan) (arrivals one.now.journal.entries) }
    requires whole { IsWholeOf one.now.plan one.now.journal.entries }
    requires second_valid { IsValidPlan second.plan }
    requires second_known { All (IsKnown second.plan) (map came second.arrivals) }
    ensures text { (first : List ℕ) → (other : List ℕ)
        → ReplaysTo first one.now.plan one.now.journal.entries
        → reading other ≡ Said second.plan (map came second.arrivals) second.asks
        → IfOk result (λ text. IsBlameOutcome first other (Ok text.items)) }
    ensures none { (first : List ℕ) → (other : List ℕ)
        → ReplaysTo first one.now.plan one.now.journal.entries
        → reading other ≡ Said second.plan (map came second.arrivals) second.asks
        → IfErr result (λ ending. IsBlameOutcome first other (Err ending)) }
{
    let other = finished(alloc, second, None)?;
    compared(alloc, one, &other)
}

// The text of the verdict on two replays that are done, if their plans are the same.
fn compared(alloc: Global, one: &Replayed, other: &Replayed) -> Result<Vec<u8>, Ending>
    requires valid { IsValidPlan one.now.plan }
    requires known { All (IsKnown one.now.plan) (arrivals one.now.journal.entries) }
    requires other_known { All (IsKnown other.now.plan) (arrivals other.now.journal.entries) }
    requires whole { IsWholeOf one.now.plan one.now.journal.entries }
    requires other_whole { IsWholeOf other.now.plan other.now.journal.entries }
    ensures text { IfOk result
        (λ text. IsComparison one.now.plan one.now.journal.entries
        other.now.plan other.now.journal.entries (Ok text.items)) }
    ensures none { IfErr result
        (λ ending. IsComparison one.now.plan one.now.journal.entries
        other.now.plan other.now.journal.entries (Err ending)) }
{
    match plan_differs(&one.plan, &other.plan) {
        Some(part) => Err(Ending::OtherPlan { part }),
        None => Ok(verdict_text(alloc, one, other)?),
    }
}

// The text of the verdict on two replays of one plan, the limit of entries aside.
fn verdict_text(alloc: Global, one: &Replayed, other: &Replayed) -> Result<Vec<u8>, Mem>
    requires valid { IsValidPlan one.now.plan }
    requires known { All (IsKnown one.now.plan) (arrivals one.now.journal.entries) }
    requires other_known { All (IsKnown other.now.plan) (arrivals other.now.journal.entries) }
    requires same { IsFirstOther one.now.plan other.now.plan None }
    requires whole { IsWholeOf one.now.plan one.now.journal.entries }
    requires other_whole { IsWholeOf other.now.plan other.now.journal.entries }
    ensures { IfOk result
        (λ text. IsVerdictText one.now.plan one.now.journal.entries
        other.now.journal.entries text.items) }
{
    let verdict = blame(alloc, &one.plan, &one.journal, &other.journal)?;
    let text = write_verdict(alloc, &one.plan, &verdict)?;
    Ok(text)
}

/// Two records have one outcome, want of memory aside: two texts or endings that `blame` may make of
/// the same bytes are the same.
pub fn records_have_one_blame()
    ensures { (first : List ℕ) → (second : List ℕ) → (o : Result (List ℕ) Ending)
        → (p : Result (List ℕ) Ending) → IsBlameOutcome first second o
        → IsBlameOutcome first second p → (o ≡ Err ends.Mem → ⊥) → (p ≡ Err ends.Mem → ⊥)
        → o ≡ p }
{}
