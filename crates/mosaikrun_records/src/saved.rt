//! What all commands on records do first: a record's bytes are read, and the record is replayed.
ghost use Rattle.std.specs.Prelude.{◌≡◌, ℕ, List, All, map, IfOk, IfErr, OnOk};
ghost use Rattle.mk_plan.specs.Plans.{IsValidPlan};
ghost use Rattle.mk_record.specs.Reading.{reading, Said};
ghost use Rattle.mk_record.specs.Seen.{came};
ghost use Rattle.mk_record.specs.Steps.{IsKnown};
ghost use Rattle.mosaikrun_records.specs.Saved.{IsDoneBy, IsNotDone, IsUnread};
ghost use Rattle.mosaikrun_records.specs.inner.Saved.{IsSaidOrMemory};

use mk_record::{RecordFault, ReplayEnd, Replayed, Saved, read_record, replay};
use mosaikrun_endings::Ending;
use mosaikrun_sayings::stopped;
use std::alloc::Global;

/// What a record's bytes say, in version 1 or 2, its plan being valid and each message known
/// (`IsKnown`); or why they say nothing: `Ending::Record` with the line, from 1, and the number of their
/// first fault, or `Ending::Mem`.
pub fn saved_of(alloc: Global, bytes: &[u8]) -> Result<Saved, Ending>
    ensures read { IfOk result
        (λ saved. reading bytes.now ≡ Said saved.plan (map came saved.arrivals) saved.asks) }
    ensures valid { IfOk result (λ saved. IsValidPlan saved.plan) }
    ensures known { IfOk result (λ saved. All (IsKnown saved.plan) (map came saved.arrivals)) }
    ensures unread { IfErr result (λ ending. IsUnread bytes.now ending) }
{
    match read_record(alloc, bytes) {
        Ok(saved) => Ok(saved),
        Err(RecordFault::Line(line, fault)) => Err(Ending::Record { line, fault }),
        Err(RecordFault::Mem) => Err(Ending::Mem),
    }
}

/// The replay of a record in this order, or as its messages came, where it ends with all done: its
/// plan, which is the record's, and its journal. Else the ending that says how the replay ended, as
/// `replay` says it, or want of memory.
pub fn finished(alloc: Global, saved: Saved, order: Option<u32>) -> Result<Replayed, Ending>
    requires valid { IsValidPlan saved.plan }
    requires known { All (IsKnown saved.plan) (map came saved.arrivals) }
    ensures plan { IfOk result (λ replayed. replayed.plan ≡ saved.plan) }
    ensures done { IfOk result
        (λ replayed. IsDoneBy saved.plan
        (map came saved.arrivals) saved.asks order replayed.journal.entries) }
    ensures unfinished { (bytes : List ℕ)
        → reading bytes ≡ Said saved.plan (map came saved.arrivals) saved.asks
        → IfErr result (λ ending. IsNotDone bytes order ending) }
{
    let replayed = replay(alloc, saved, order)?;
    all_done(alloc, &replayed)?;
    Ok(replayed)
}

// Whether a replay ended with all done; else what is said of its end.
fn all_done(alloc: Global, replayed: &Replayed) -> Result<(), Ending>
    ensures done { OnOk result (replayed.now.end ≡ ReplayEnd.Done) }
    ensures said { IfErr result
        (λ ending. IsSaidOrMemory replayed.now.plan
        replayed.now.journal.entries replayed.now.end ending) }
{
    match replayed.end {
        ReplayEnd::Done => Ok(()),
        ReplayEnd::Short(outstanding) => Err(Ending::Short { outstanding }),
        ReplayEnd::Other(entry) => Err(Ending::Differs { entry }),
        ReplayEnd::Core(fault) => Err(stopped(alloc, &replayed.plan, &replayed.journal, fault)?),
    }
}
