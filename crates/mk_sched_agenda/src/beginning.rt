//! What is due before any step.
ghost use Rattle.std.specs.Prelude.{◌≡◌, ℤ, ◌<◌, ◌≤◌, ◌≤ℤ◌, ◌∷◌, ◌++◌, [], pos, false, length, All, IfOk, OnOk, None, fold, map};
ghost use Rattle.mk_plan.specs.declared.Plan.{Plan};
ghost use Rattle.mk_plan.specs.Plans.{IsValidPlan, is_event_based};
ghost use Rattle.mk_base.specs.Tiers.{moment};
ghost use Rattle.mk_nextstep.specs.Queues.{least};
ghost use Rattle.mk_tiers.specs.Seen.{AreOfPlan};
ghost use Rattle.mk_sched_agenda.specs.Dues.{limits_of};
ghost use Rattle.mk_sched_agenda.specs.inner.Dues.{first_queue, with_own, with_start};
ghost use Rattle.mk_sched_agenda.specs.inner.Begun.{AreBegun, AreNone};
ghost use Rattle.mk_base.specs.Limits.{latest_end, most_loops};

use crate::dues::{Dues, add_own};
use crate::limits::Limits;
use crate::turns::OpenTurns;
use mk_base::{Mem, SimKind, SimNo, Tier};
use mk_nextstep::Queue;
use mk_plan::{Plan, PlanSim};
use mk_tiers::Bounds;
use std::alloc::Global;

// The steps that simulators have before them as the run begins.
pub fn first_dues(alloc: Global, plan: &Plan, limits: &Limits) -> Result<Dues, Mem>
    requires valid { IsValidPlan plan.now }
    requires limits { limits.now ≡ limits_of plan.now }
    ensures lasts { IfOk result (λ dues. AreNone (length plan.now.sims) dues.lasts.items) }
    ensures begun { IfOk result
        (λ dues. AreBegun plan.now
        (length plan.now.sims) dues.queues.items dues.opened dues.bounds) }
{
    let mut dues = Dues {
        queues: Vec::new(alloc),
        lasts: Vec::new(alloc),
        opened: OpenTurns::new(alloc),
        bounds: Bounds::new(alloc, plan)?,
    };
    for (number, sim) in plan.sims.as_slice().iter().enumerate() {
        begin(alloc, &mut dues, limits, SimNo(number as u32), sim)?;
    }
    Ok(dues)
}

// Adds the next simulator.
fn begin(
    alloc: Global,
    dues: &mut Dues,
    limits: &Limits,
    number: SimNo,
    sim: &PlanSim,
) -> Result<(), Mem>
    requires number { number.0 < length dues.old.bounds.owns }
    requires until { limits.now.until ≤ℤ latest_end }
    requires loops { limits.now.loops ≤ most_loops }
    requires events { All (λ (e : ℤ). pos 0 ≤ℤ e) sim.now.initial }
    ensures queues { OnOk result (dues.new.queues.items ≡ dues.old.queues.items
        ++ first_queue limits.now sim.now ∷ []) }
    ensures lasts { OnOk result (dues.new.lasts.items ≡ dues.old.lasts.items ++ None ∷ []) }
    ensures opened { OnOk result (dues.new.opened ≡ dues.old.opened ++ false ∷ []) }
    ensures bounds { OnOk result (dues.new.bounds
        ≡ with_start dues.old.bounds number.0 (least (first_queue limits.now sim.now)) false) }
    ensures plan { (P : Plan) → AreOfPlan P dues.old.bounds → AreOfPlan P dues.new.bounds }
{
    let queue = first_queue(alloc, limits, sim)?;
    let first = queue.least();
    dues.queues.push(queue)?;
    dues.lasts.push(None)?;
    dues.opened.push()?;
    dues.bounds.set_own(number, first, false);
    Ok(())
}

// The steps that a simulator has before it as the run begins.
fn first_queue(alloc: Global, limits: &Limits, sim: &PlanSim) -> Result<Queue, Mem>
    ensures { IfOk result (λ queue. queue ≡ first_queue limits.now sim.now) }
{
    let mut queue = event_queue(alloc, limits, sim)?;
    if !is_event_based(sim) {
        add_own(&mut queue, limits, Tier { time: 0, tier: 0 })?;
    }
    Ok(queue)
}

// The steps that its initial events ask for.
fn event_queue(alloc: Global, limits: &Limits, sim: &PlanSim) -> Result<Queue, Mem>
    ensures { IfOk result (λ queue. queue
        ≡ fold (with_own limits.now) [] (map moment sim.now.initial)) }
{
    let mut queue = Queue::new(alloc);
    for time in sim.initial.as_slice() {
        add_event(&mut queue, limits, time)?;
    }
    Ok(queue)
}

// Adds the step that an initial event asks for.
fn add_event(queue: &mut Queue, limits: &Limits, time: &i64) -> Result<(), Mem>
    ensures { OnOk result (queue.new ≡ with_own limits.now queue.old (moment time.now)) }
{
    let at = Tier {
        time: *time,
        tier: 0,
    };
    add_own(queue, limits, at)
}

// Whether the simulator has no step of its own at the beginning.
fn is_event_based(sim: &PlanSim) -> bool
    ensures { result ≡ is_event_based sim.now.kind }
{
    match sim.kind {
        SimKind::EventBased => true,
        SimKind::TimeBased => false,
        SimKind::Hybrid => false,
    }
}
