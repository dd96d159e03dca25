//! Within which a run stays: its end, and the loop limit.
ghost use Rattle.std.specs.Prelude.{◌≡◌};
ghost use Rattle.mk_sched_agenda.specs.Dues.{limits_of};
ghost use Rattle.mk_sched_agenda.specs.inner.Dues.{is_inside};

use mk_base::Tier;
use mk_plan::Plan;

// The end of a run, in the unit of the scenario, and the highest tier that its steps may have.
#[derive(Clone, Copy)]
pub struct Limits {
    pub until: i64,
    pub loops: u32,
}

// The limits of a plan.
pub fn limits_of(plan: &Plan) -> Limits
    ensures { result ≡ limits_of plan.now }
{
    Limits {
        until: plan.until,
        loops: plan.loops,
    }
}

// Whether a step is within the limits.
pub fn is_inside(limits: &Limits, at: Tier) -> bool
    ensures { result ≡ is_inside limits.now at }
{
    at.time < limits.until && at.tier <= limits.loops
}
