//! From a record and a file of watches to the text of their tables, or why there is none.
ghost use Rattle.std.specs.Prelude.{◌≡◌, ℕ, List, Result, Ok, Err, All, length, map, IfOk, IfErr};
ghost use Rattle.mk_plan.specs.Plans.{IsValidPlan};
ghost use Rattle.mk_record.specs.Reading.{reading, Said};
ghost use Rattle.mk_record.specs.Seen.{came};
ghost use Rattle.mk_record.specs.Steps.{IsKnown};
ghost use Rattle.mk_watch_read.specs.declared.rule.Fold.{Fold};
ghost use Rattle.mk_watch_read.specs.Rules.{folds_in, names_in};
ghost use Rattle.mk_watch_read.specs.Watches.{AreInside, watches_of};
ghost use Rattle.mosaikrun_endings.specs.declared.ending.Ending.{Ending};
ghost use Rattle.mosaikrun_endings.specs.declared.ending.Ending.TheVariants as ends;
ghost use Rattle.mosaikrun_watch.specs.Watched.{IsNoWatch, IsWatchOutcome};

use mk_base::List;
use mk_plan::Plan;
use mk_record::Saved;
use mk_watch::{Rules, Watch, WatchFault, read_watches, write_tables};
use mosaikrun_endings::Ending;
use mosaikrun_records::finished;
use std::alloc::Global;

/// The watches that a file of these bytes says over the plan of a record and these rules; or why it
/// says none: `Ending::Watches` with the first test that it fails, or want of memory.
pub fn watches_of(
    alloc: Global,
    rules: &Rules,
    saved: &Saved,
    bytes: &[u8],
) -> Result<List<Watch>, Ending>
    requires { IsValidPlan saved.now.plan }
    ensures read { IfOk result
        (λ ws. watches_of saved.now.plan (names_in rules.now) bytes.now ≡ Ok ws) }
    ensures inside { IfOk result
        (λ ws. AreInside saved.now.plan (length (names_in rules.now)) ws) }
    ensures cause { IfErr result
        (λ ending. IsNoWatch saved.now.plan (names_in rules.now) bytes.now ending) }
    ensures unread { (recorded : List ℕ)
        → reading recorded ≡ Said saved.now.plan (map came saved.now.arrivals) saved.now.asks
        → IfErr result (λ ending. IsWatchOutcome (names_in rules.now) (folds_in rules.now) recorded
        bytes.now (Err ending)) }
{
    plan_watches(alloc, rules, &saved.plan, bytes)
}

// The same over a plan.
fn plan_watches(
    alloc: Global,
    rules: &Rules,
    plan: &Plan,
    bytes: &[u8],
) -> Result<List<Watch>, Ending>
    requires { IsValidPlan plan.now }
    ensures read { IfOk result (λ ws. watches_of plan.now (names_in rules.now) bytes.now ≡ Ok ws) }
    ensures inside { IfOk result (λ ws. AreInside plan.now (length (names_in rules.now)) ws) }
    ensures unread { IfErr result
        (λ ending. IsNoWatch plan.now (names_in rules.now) bytes.now ending) }
{
    match read_watches(alloc, bytes, plan, rules) {
        Ok(watches) => Ok(watches),
        Err(WatchFault::Mem) => Err(Ending::Mem),
        Err(fault) => Err(Ending::Watches(fault)),
    }
}

/// The tables of these watches over the replay of a record, its messages as they came, where all is
/// done; or why there are none: how the replay ended, or want of memory (`Ending::Mem`).
pub fn tabled(
    alloc: Global,
    rules: &Rules,
    saved: Saved,
    watches: List<Watch>,
) -> Result<Vec<u8>, Ending>
    requires valid { IsValidPlan saved.plan }
    requires known { All (IsKnown saved.plan) (map came saved.arrivals) }
    requires inside { AreInside saved.plan (length (names_in rules.now)) watches }
    ensures text { (recorded : List ℕ) → (spec : List ℕ)
        → reading recorded ≡ Said saved.plan (map came saved.arrivals) saved.asks
        → watches_of saved.plan (names_in rules.now) spec ≡ Ok watches
        → IfOk result (λ text. IsWatchOutcome (names_in rules.now) (folds_in rules.now) recorded
        spec (Ok text.items)) }
    ensures none { (recorded : List ℕ) → (spec : List ℕ)
        → reading recorded ≡ Said saved.plan (map came saved.arrivals) saved.asks
        → watches_of saved.plan (names_in rules.now) spec ≡ Ok watches
        → IfErr result (λ ending. IsWatchOutcome (names_in rules.now) (folds_in rules.now) recorded
        spec (Err ending)) }
{
    let replayed = finished(alloc, saved, None)?;
    let text = write_tables(alloc, &watches, rules, &replayed.plan, &replayed.journal)?;
    Ok(text)
}

/// A record and a file of watches have one outcome, want of memory aside: two texts or endings that
/// `watch` may make of the same bytes by the same rules are the same.
pub fn files_have_one_watch()
    ensures { (names : List (List ℕ)) → (folds : List Fold) → (recorded : List ℕ) → (spec : List ℕ)
        → (o : Result (List ℕ) Ending) → (p : Result (List ℕ) Ending)
        → IsWatchOutcome names folds recorded spec o → IsWatchOutcome names folds recorded spec p
        → (o ≡ Err ends.Mem → ⊥) → (p ≡ Err ends.Mem → ⊥) → o ≡ p }
{}
