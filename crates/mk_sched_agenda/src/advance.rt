//! How far a simulator may go in a step before something from outside triggers it.
ghost use Rattle.std.specs.Prelude.{◌≡◌};
ghost use Rattle.mk_order.proofs.Tables.{sooner, advance_by};

use crate::limits::Limits;
use mk_base::Tier;

// The sooner time of a trigger and an outer bound; `None` where neither is there.
pub fn sooner(trigger: Option<Tier>, outer: Option<i64>) -> Option<i64>
    ensures { result ≡ sooner trigger outer }
{
    match (trigger, outer) {
        (None, outer) => outer,
        (Some(trigger), None) => Some(trigger.time),
        (Some(trigger), Some(outer)) => Some(trigger.time.min(outer)),
    }
}

// The last time before the sooner one, but no earlier than the step, and no later than the run's end; that end where
// there is no sooner one.
pub fn advance_by(limits: &Limits, at: Tier, sooner: Option<i64>) -> i64
    ensures { result ≡ advance_by limits.now.until at.time sooner }
{
    match sooner {
        Some(time) if at.time < time => limits.until.min(time - 1),
        Some(_) => limits.until.min(at.time),
        None => limits.until,
    }
}
