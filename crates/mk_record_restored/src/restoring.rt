//! The core after the messages of a record.
ghost use Rattle.std.specs.Prelude.{◌≡◌, All, IfOk, List, None, Option, length, map};
ghost use Rattle.mk_plan.specs.declared.Plan.{Plan};
ghost use Rattle.mk_plan.specs.Journals as journals;
ghost use Rattle.mk_plan.specs.Plans.{IsValidPlan};
ghost use Rattle.mk_record_read.specs.declared.saved.Asked.{Asked};
ghost use Rattle.mk_record_read.specs.Seen.{came};
ghost use Rattle.mk_record_read.specs.Steps.{IsKnown};
ghost use Rattle.mk_record_compare.specs.Differences.{IsOther};
ghost use Rattle.mk_record_restored.specs.declared.restoring.Restored.TheVariants as restored;
ghost use Rattle.mk_record_restored.specs.Restored.{IsFaulted, IsRestored, RestoredIsOne, RestoresAs};

use mk_base::{List, Mem};
use mk_plan::{Journal, Plan};
use mk_record_compare::first_other_step;
use mk_record_read::{Arrival, Asked};
use mk_record_replay::{ReplayEnd, give_all};
use mk_sched::{Core, CoreFault};
use std::alloc::Global;

/// What comes of the messages and the steps of a record.
#[derive(Drop)]
pub enum Restored {
    /// The core goes on. Its journal begins with all that the record has, and nobody is ready.
    Onward(Core),
    /// The record's entry of this number, from 0, is the first that isn't the journal's.
    Other(u32),
    /// The core met this fault, the limit of entries among them; its plan, and its journal up to there.
    Faulted(CoreFault, Plan, Journal),
}

/// Gives the messages of a record to a core of this plan, in their order and as a replay does, asks
/// whoever is ready then, and compares the record's steps with the journal; of a record of version 1
/// nothing is compared. The plan has its own limit of entries. `Mem` is want of memory.
pub fn restore(
    alloc: Global,
    plan: Plan,
    arrivals: List<Arrival>,
    asks: &Option<List<Asked>>,
) -> Result<Restored, Mem>
    requires valid { IsValidPlan plan }
    requires known { All (IsKnown plan) (map came arrivals) }
    ensures { IfOk result (λ r. RestoresAs plan (map came arrivals) asks.now r) }
{
    let count = arrivals.len();
    let Ok(mut core) = Core::new(alloc, plan) else {
        drop(arrivals);
        return Err(Mem);
    };
    let Ok(end) = give_all(&mut core, arrivals) else {
        drop(core);
        return Err(Mem);
    };
    match end {
        ReplayEnd::Core(fault) => Ok(faulted(core, fault)),
        ReplayEnd::Done => Ok(compared(core, count, asks)),
        ReplayEnd::Short(_) => Ok(compared(core, count, asks)),
        ReplayEnd::Other(_) => unreachable!(),
    }
}

/// One thing comes of the messages and the steps of a record, over a plan.
pub fn restored_is_one()
    ensures { RestoredIsOne }
{}

// What is left of a core that met this fault.
fn faulted(core: Core, fault: CoreFault) -> Restored
    ensures { (P : Plan) → (A : List journals.Arrival) → (asks : Option (List Asked))
        → core.plan ≡ P → IsFaulted P A core.entries fault → RestoresAs P A asks result }
{
    let (plan, journal) = core.into_parts();
    Restored::Faulted(fault, plan, journal)
}

// The core goes on, if its journal begins with all that the record has.
fn compared(core: Core, count: usize, asks: &Option<List<Asked>>) -> Restored
    requires { core.ended ≡ None }
    ensures { (P : Plan) → (A : List journals.Arrival) → core.plan ≡ P → length A ≡ count
        → IsRestored P A core.entries → RestoresAs P A asks.now result }
{
    let other = other_in(&core, count, asks);
    told(core, other)
}

// The first of the record's entries that isn't the journal's.
fn other_in(core: &Core, count: usize, asks: &Option<List<Asked>>) -> Option<u32>
    ensures { (P : Plan) → (A : List journals.Arrival) → length A ≡ count
        → IsRestored P A core.now.entries → IsOther A asks.now core.now.entries result }
{
    first_other_step(count, asks, core.journal())
}

// What comes of a core, where this entry of the record is the first that isn't the journal's.
fn told(core: Core, other: Option<u32>) -> Restored
    requires { core.ended ≡ None }
    ensures { (P : Plan) → (A : List journals.Arrival) → (asks : Option (List Asked))
        → core.plan ≡ P → IsRestored P A core.entries → IsOther A asks core.entries other
        → RestoresAs P A asks result }
{
    match other {
        None => Restored::Onward(core),
        Some(place) => given_up(core, place),
    }
}

// Nothing is kept of the core.
fn given_up(core: Core, place: u32) -> Restored
    ensures { result ≡ restored.Other place }
{
    drop(core.into_parts());
    Restored::Other(place)
}
