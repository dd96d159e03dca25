//! A record that is taken, or isn't.
ghost use Rattle.std.specs.Prelude.{◌≡◌, All, None, map, false};
ghost use Rattle.mk_plan.specs.declared.Plan.{Plan};
ghost use Rattle.mk_plan.specs.Plans.{IsValidPlan};
ghost use Rattle.mk_record_read.specs.declared.saved.Saved.{Saved};
ghost use Rattle.mk_record_read.specs.Seen.{came};
ghost use Rattle.mk_record_read.specs.Steps.{IsKnown};
ghost use Rattle.mk_plan_same.specs.Parts.{IsFirstOther};
ghost use Rattle.mk_record_restored.specs.Restored.{IsOnward, RestoresAs};
ghost use Rattle.mk_resume.specs.inner.Going.{AcceptsAs};

use crate::resuming::ResumeRan;
use mk_plan::Plan;
use mk_plan_same::plan_differs;
use mk_record_read::Saved;
use mk_record_restored::{Restored, restore};
use mk_resume_loop::{Behind, ResumeEnd};
use mk_run::Outcome;
use mk_sched::Core;
use std::alloc::Global;

// What comes of a record.
#[derive(Drop)]
pub enum Accepted {
    // It was taken. Nobody is behind yet.
    Onward(Core, Behind),
    // It wasn't, and this is what the run comes to.
    Refused(ResumeRan),
}

// Nothing is left of a record that wasn't taken.
pub fn nothing_left(end: ResumeEnd) -> ResumeRan
    ensures { result ≡ record { end = end; taken = false; plan = None; journal = None } }
{
    ResumeRan {
        end,
        taken: false,
        plan: None,
        journal: None,
    }
}

// Compares the plan with a record's, and takes the record's messages over it.
pub fn accept(alloc: Global, plan: Plan, saved: Saved) -> Accepted
    requires valid { IsValidPlan plan }
    requires known { All (IsKnown saved.plan) (map came saved.arrivals) }
    ensures { AcceptsAs plan saved result }
{
    match plan_differs(&plan, &saved.plan) {
        Some(part) => Accepted::Refused(nothing_left(ResumeEnd::OtherPlan(part))),
        None => take(alloc, plan, saved),
    }
}

// Takes the messages of a record with the same plan.
fn take(alloc: Global, plan: Plan, saved: Saved) -> Accepted
    requires valid { IsValidPlan plan }
    requires known { All (IsKnown saved.plan) (map came saved.arrivals) }
    requires same { IsFirstOther plan saved.plan None }
    ensures { AcceptsAs plan saved result }
{
    let Saved {
        plan: _,
        arrivals,
        asks,
    } = saved;
    match restore(alloc, plan, arrivals, &asks) {
        Ok(restored) => told(alloc, restored),
        Err(_) => Accepted::Refused(nothing_left(ResumeEnd::Outcome(Outcome::Mem))),
    }
}

// What comes of a record with the same plan.
fn told(alloc: Global, restored: Restored) -> Accepted
    ensures { (plan : Plan) → (saved : Saved) → IsFirstOther plan saved.plan None
        → RestoresAs plan (map came saved.arrivals) saved.asks restored
        → AcceptsAs plan saved result }
{
    match restored {
        Restored::Onward(core) => onward(alloc, core),
        Restored::Other(entry) => Accepted::Refused(nothing_left(ResumeEnd::OtherEntry(entry))),
        Restored::Faulted(fault, plan, journal) => Accepted::Refused(ResumeRan {
            end: ResumeEnd::Outcome(Outcome::Core(fault)),
            taken: false,
            plan: Some(plan),
            journal: Some(journal),
        }),
    }
}

// The core goes on, if there is memory to say how far each simulator is behind.
fn onward(alloc: Global, core: Core) -> Accepted
    ensures { (plan : Plan) → (saved : Saved) → IsFirstOther plan saved.plan None
        → IsOnward plan (map came saved.arrivals) saved.asks core → AcceptsAs plan saved result }
{
    match Behind::new(alloc, core.plan().sims.len()) {
        Ok(behind) => Accepted::Onward(core, behind),
        Err(_) => given_up(core),
    }
}

// Nothing is kept of the core.
fn given_up(core: Core) -> Accepted
    ensures { (plan : Plan) → (saved : Saved) → IsFirstOther plan saved.plan None
        → AcceptsAs plan saved result }
{
    drop(core.into_parts());
    Accepted::Refused(nothing_left(ResumeEnd::Outcome(Outcome::Mem)))
}
