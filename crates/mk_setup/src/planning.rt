//! The plan, once all groups are created.
ghost use Rattle.std.specs.Prelude.{◌≡◌, ◌+◌, ◌≤◌, IfOk, IfErr, OnOk, None, length};
ghost use Rattle.mk_connect_pairs.specs.Faults.{IsFaultOf};
ghost use Rattle.mk_setup.specs.Asking.{plan_of, refusal};
ghost use Rattle.mk_setup.specs.Kept.{state_of};
ghost use Rattle.mk_setup.specs.inner.Kept.{IsSoundProgress};
ghost use Rattle.mk_setup.specs.inner.Standing.{IsPlanOf};

use crate::counts::first_ids;
use crate::progress::Progress;
use mk_connect::{ConnectFault, plan};
use mk_plan::Plan;

fn plan_of(progress: &Progress) -> Result<Plan, ConnectFault>
    requires kept { IsSoundProgress progress.now }
    requires created { length progress.now.scenario.sims + length progress.now.scenario.groups ≤
        progress.now.answered }
    ensures ok { IfOk result (λ P. IsPlanOf (state_of progress.now None) P) }
    ensures refused { IfErr result (λ e. IsFaultOf (plan_of (state_of progress.now None)) e) }
{
    let ids = first_ids(progress.alloc, &progress.scenario)?;
    plan(
        progress.alloc,
        &progress.scenario,
        &progress.ranks,
        &progress.metas,
        &progress.entities,
        ids.as_slice(),
    )
}

// Makes the plan, unless it is there.
pub fn make_plan(progress: &mut Progress) -> Result<(), ConnectFault>
    requires kept { IsSoundProgress progress.old }
    requires created { length progress.old.scenario.sims + length progress.old.scenario.groups ≤
        progress.old.answered }
    ensures kept { IsSoundProgress progress.new }
    ensures same { state_of progress.new None ≡ state_of progress.old None }
    ensures ok { OnOk result (refusal (plan_of (state_of progress.old None)) ≡ None) }
    ensures refused { IfErr result (λ e. IsFaultOf (plan_of (state_of progress.old None)) e) }
{
    if progress.plan.is_some() {
        return Ok(());
    }
    let plan = plan_of(progress)?;
    progress.plan = Some(plan);
    Ok(())
}

// Gives the plan away.
pub fn take_plan(progress: &mut Progress) -> Result<Plan, ConnectFault>
    requires kept { IsSoundProgress progress.old }
    requires created { length progress.old.scenario.sims + length progress.old.scenario.groups ≤
        progress.old.answered }
    ensures kept { IsSoundProgress progress.new }
    ensures same { state_of progress.new None ≡ state_of progress.old None }
    ensures ok { IfOk result (λ P. IsPlanOf (state_of progress.old None) P) }
    ensures refused { IfErr result (λ e. IsFaultOf (plan_of (state_of progress.old None)) e) }
{
    match progress.plan.take() {
        Some(plan) => Ok(plan),
        None => plan_of(progress),
    }
}
