//! The replay of a record: whoever is ready is asked, and a message is given, until nothing is left to do.
ghost use Rattle.std.specs.Prelude.{◌≡◌, ◌<◌, ◌^◌, ℕ, List, [], Option, None, map, reverse, All, IfOk, is_some, if◌then◌else◌};
ghost use Rattle.mk_plan.specs.Plans.{IsValidPlan, sim_count};
ghost use Rattle.mk_plan.specs.Journals as journals;
ghost use Rattle.mk_plan.specs.Journals.{view, open_count};
ghost use Rattle.mk_plan.specs.declared.Entry.{Entry};
ghost use Rattle.mk_plan.specs.declared.Plan.{Plan};
ghost use Rattle.mk_record_read.specs.declared.saved.Asked.{Asked};
ghost use Rattle.mk_record_replay.specs.declared.replaying.ReplayEnd.{ReplayEnd};
ghost use Rattle.mk_record_read.specs.Seen.{came};
ghost use Rattle.mk_record_read.specs.Steps.{IsKnown};
ghost use Rattle.mk_sched.specs.Answers.{open_id};
ghost use Rattle.mk_record_replay.specs.Replays.{IsReplay, IsEndOf, end_with};
ghost use Rattle.mk_record_replay.specs.Orders.{IsReplayBy, IsReplayInOrder};
ghost use Rattle.mk_record_replay.specs.inner.Rounds.{GrownBy};
ghost use Rattle.mk_record_replay.specs.Runs.{CanArrive, HasReplayed};
ghost use Rattle.mk_record_replay.specs.inner.Loops.{GivenBy, IsOnWay, IsUnready};

use crate::asking::{Standstill, ask_all};
use crate::ordering::{run_in_order, split};
use mk_base::{List, Mem, SimNo};
use mk_plan::{Journal, Plan};
use mk_record_compare::first_other_step;
use mk_record_read::{Arrival, Saved};
use mk_sched::{Core, CoreFault, Taken};
use std::alloc::Global;

/// How a replay ends: nothing is left to do; the core met a fault, the limit of entries among them; all messages were
/// given, and this many simulators, at least one, still owe a reply; or the record's entry of this number, from 0, is
/// the first that isn't the journal's.
#[derive(Clone, Copy, Debug, PartialEq, Eq)]
pub enum ReplayEnd {
    Done,
    Core(CoreFault),
    Short(u32),
    Other(u32),
}

/// What a replay comes to: its end, the plan, and the journal as far as it came.
#[derive(Drop)]
pub struct Replayed {
    pub end: ReplayEnd,
    pub plan: Plan,
    pub journal: Journal,
}

/// Runs the plan of a record over the messages that came. Whoever is ready is asked first; then one message is given,
/// and so on, up to the first fault, or until all were given and nobody is ready.
///
/// Without an order the messages are given as they came; where no fault was met, the entries of a record of version 2
/// are then compared with the journal. With an order each simulator's messages are given as they came, and which
/// simulator's is next is drawn by numbers that begin with the order (`docs/formats.md`, "Replay in another order");
/// nothing is compared. `Mem` is want of memory.
pub fn replay(alloc: Global, saved: Saved, order: Option<u32>) -> Result<Replayed, Mem>
    requires valid { IsValidPlan saved.plan }
    requires known { All (IsKnown saved.plan) (map came saved.arrivals) }
    ensures plan { IfOk result (λ r. r.plan ≡ saved.plan) }
    ensures replay { IfOk result
        (λ r. IsReplayBy saved.plan
        (map came saved.arrivals) saved.asks order r.journal.entries r.end) }
{
    match order {
        None => {
            let replayed = as_recorded(alloc, saved)?;
            Ok(replayed)
        }
        Some(number) => {
            let replayed = in_order(alloc, saved, number)?;
            Ok(replayed)
        }
    }
}

// Gives the messages as they came.
fn as_recorded(alloc: Global, saved: Saved) -> Result<Replayed, Mem>
    requires valid { IsValidPlan saved.plan }
    requires known { All (IsKnown saved.plan) (map came saved.arrivals) }
    ensures plan { IfOk result (λ r. r.plan ≡ saved.plan) }
    ensures replay { IfOk result
        (λ r. IsReplay saved.plan (map came saved.arrivals) r.journal.entries) }
    ensures end { IfOk result
        (λ r. IsEndOf saved.plan (map came saved.arrivals) saved.asks r.journal.entries r.end) }
{
    let Saved {
        plan,
        arrivals,
        asks,
    } = saved;
    let count = arrivals.len();
    let Ok(mut core) = Core::new(alloc, plan) else {
        drop(arrivals);
        drop(asks);
        return Err(Mem);
    };
    let Ok(end) = give_all(&mut core, arrivals) else {
        drop(core);
        drop(asks);
        return Err(Mem);
    };
    let (plan, journal) = core.into_parts();
    let other = first_other_step(count, &asks, &journal);
    drop(asks);
    Ok(Replayed {
        end: end_with(end, other),
        plan,
        journal,
    })
}

// Gives the messages in the order of this number.
fn in_order(alloc: Global, saved: Saved, order: u32) -> Result<Replayed, Mem>
    requires valid { IsValidPlan saved.plan }
    requires known { All (IsKnown saved.plan) (map came saved.arrivals) }
    ensures plan { IfOk result (λ r. r.plan ≡ saved.plan) }
    ensures replay { IfOk result
        (λ r. IsReplayInOrder saved.plan (map came saved.arrivals) order r.journal.entries r.end) }
{
    let Saved {
        plan,
        arrivals,
        asks,
    } = saved;
    drop(asks);
    let Ok(mut waiting) = split(alloc, plan.sims.len(), arrivals) else {
        drop(plan);
        return Err(Mem);
    };
    let Ok(mut core) = Core::new(alloc, plan) else {
        drop(waiting);
        return Err(Mem);
    };
    let ended = run_in_order(alloc, &mut core, &mut waiting, order);
    drop(waiting);
    let Ok(end) = ended else {
        drop(core);
        return Err(Mem);
    };
    let (plan, journal) = core.into_parts();
    Ok(Replayed { end, plan, journal })
}

// How the replay of a record ends, by how that of its messages ends and which of its entries is another.
fn end_with(end: ReplayEnd, other: Option<u32>) -> ReplayEnd
    ensures { result ≡ end_with end other }
{
    match end {
        ReplayEnd::Core(fault) => ReplayEnd::Core(fault),
        ReplayEnd::Other(place) => ReplayEnd::Other(place),
        ReplayEnd::Done => match other {
            None => ReplayEnd::Done,
            Some(place) => ReplayEnd::Other(place),
        },
        ReplayEnd::Short(count) => match other {
            None => ReplayEnd::Short(count),
            Some(place) => ReplayEnd::Other(place),
        },
    }
}

/// A record has one replay in each order: two journals over its plan and its messages that have come to an end are the
/// same, and so is their end.
pub fn replay_is_one()
    ensures { (P : Plan) → (A : List journals.Arrival) → (steps : Option (List Asked))
        → (order : Option ℕ) → (J : List Entry) → (K : List Entry) → (e : ReplayEnd)
        → (f : ReplayEnd)
        → IsReplayBy P A steps order J e → IsReplayBy P A steps order K f → (J ≡ K) × (e ≡ f) }
{}

/// Gives these messages to a new core, in their order. Whoever is ready is asked before each and
/// after the last. It keeps none that was given. The end is `Done`, `Short` or a fault of the core;
/// where it is no fault, the core goes on. `Mem` is want of memory.
pub fn give_all(core: &mut Core, arrivals: List<Arrival>) -> Result<ReplayEnd, Mem>
    requires new { core.old ≡ record { plan = core.old.plan; entries = []; ended = None } }
    requires known { All (CanArrive core.old.plan) arrivals }
    ensures { IfOk result (λ end. HasReplayed core.old.plan (map came arrivals) end core.new) }
{
    let mut left = last_first(arrivals);
    let mut half = left.len() / 2;
    while let Some(arrival) = left.pop() {
        if let Some(fault) = give(core, arrival)? {
            return Ok(ReplayEnd::Core(fault));
        }
        half = give_room_back(&mut left, half);
    }
    finish(core)
}

// The messages from the last to the first.
fn last_first(arrivals: List<Arrival>) -> List<Arrival>
    ensures { result ≡ reverse arrivals }
{
    let mut all = arrivals.into_vec();
    all.reverse();
    List::from_vec(all)
}

// Gives back the room of the messages that were taken off, where no more are left than half of those that there were
// when it was given back last; half of those that there were then.
fn give_room_back(left: &mut List<Arrival>, half: usize) -> usize
    ensures { left.new ≡ left.old }
{
    if left.len() > half {
        return half;
    }
    left.trim();
    left.len() / 2
}

// Asks whoever is ready, and then gives one message; the fault that ends the replay, if there is one.
fn give(core: &mut Core, arrival: Arrival) -> Result<Option<CoreFault>, Mem>
    requires going { core.old.ended ≡ None }
    requires known { CanArrive core.old.plan arrival }
    ensures { IfOk result (λ fault. GivenBy core.old (came arrival) fault core.new) }
{
    let Ok(standstill) = ask_all(core) else {
        drop(arrival);
        return Err(Mem);
    };
    match standstill {
        Standstill::Full(fault) => {
            drop(arrival);
            Ok(Some(fault))
        }
        Standstill::Waiting => take(core, arrival),
        Standstill::Over => take(core, arrival),
    }
}

// Gives one message; the fault that comes of it, if one does.
pub fn take(core: &mut Core, arrival: Arrival) -> Result<Option<CoreFault>, Mem>
    requires going { core.old.ended ≡ None }
    requires known { CanArrive core.old.plan arrival }
    requires nobody { IsUnready core.old }
    ensures given { IfOk result (λ fault. GivenBy core.old (came arrival) fault core.new) }
    ensures grown { IfOk result (λ fault. GrownBy core.old (came arrival) fault core.new) }
{
    let Arrival { sim, message } = arrival;
    match core.take(sim, message)? {
        Taken::Quiet => Ok(None),
        Taken::Send => Ok(None),
        Taken::Fault(fault) => Ok(Some(fault)),
    }
}

// Asks whoever is ready after the last message; how the replay of all messages ends.
fn finish(core: &mut Core) -> Result<ReplayEnd, Mem>
    requires going { core.old.ended ≡ None }
    ensures { (A : List journals.Arrival) → IsOnWay core.old.plan A core.old.entries
        → IfOk result (λ end. HasReplayed core.old.plan A end core.new) }
{
    match ask_all(core)? {
        Standstill::Full(fault) => Ok(ReplayEnd::Core(fault)),
        Standstill::Over => Ok(ReplayEnd::Done),
        Standstill::Waiting => Ok(ReplayEnd::Short(open_count(core))),
    }
}

// At how many simulators a request is open.
pub fn open_count(core: &Core) -> u32
    requires going { core.now.ended ≡ None }
    requires few { sim_count core.now.plan < 2 ^ 32 }
    ensures { result ≡ open_count core.now.plan (view core.now.plan core.now.entries) }
{
    let mut count = 0;
    let sims = core.plan().sims.len() as u32;
    for number in 0..sims {
        count += open_at(core, SimNo(number));
    }
    count
}

// How many requests are open at the simulator: one or none.
fn open_at(core: &Core, sim: SimNo) -> u32
    requires going { core.now.ended ≡ None }
    requires there { sim.0 < sim_count core.now.plan }
    ensures { result ≡ (if is_some (open_id core.now sim.0) then 1 else 0) }
{
    if core.id_of(sim).is_some() { 1 } else { 0 }
}
