//! Whether a plan is valid: its five parts, tested in order.
#![tactic(auto)]

ghost use Rattle.std.specs.Prelude.{◌≡◌, IfErr, IfOk, OnOk};
ghost use Rattle.std.specs.Bool.{OnTrue};
ghost use Rattle.mk_plan.specs.Plans.{IsValidPlan};
ghost use Rattle.mk_plan_check.specs.FirstBad.{FaultOf, AnswersTo};
ghost use Rattle.mk_plan_check.specs.inner.FirstBad.{HasDatums};
ghost use Rattle.mk_plan_check.specs.Tests.{first_bad, is_well_formed};

mod agreement;
mod connections;
mod limits;
mod marks;
mod names;
mod nesting;
mod parts;
mod ranks;
mod references;

use agreement::has_one_connection_each;
use connections::{has_initial_values, has_kinds_of_connections};
use limits::is_within_limits;
use mk_base::Mem;
use mk_plan::Plan;
use names::has_distinct_names;
pub use nesting::text_nesting;
use ranks::has_ranks;
use references::refers_inside;
use std::alloc::Global;
use thiserror::Error;

/// Why a plan wasn't found valid.
#[derive(Debug, Drop, Error)]
pub enum PlanFault {
    /// The number of the first of the five parts that fails, from 1.
    #[error("part {0} of the plan fails")]
    Bad(u8),
    /// Want of memory.
    #[error("out of memory")]
    Mem,
}

impl From<Mem> for PlanFault {
    ghost use Rattle.mk_plan_check.specs.declared.PlanFault.TheVariants.{Mem};

    ghost from_gives = { λ _ e. e ≡ Mem };

    fn from(_e: Mem) -> PlanFault {
        PlanFault::Mem
    }
}

fn is_well_formed(alloc: Global, plan: &Plan) -> Result<bool, Mem>
    ensures value { IfOk result (λ holds. holds ≡ is_well_formed plan.now) }
    ensures datums { IfOk result (λ holds. OnTrue holds (HasDatums plan.now)) }
{
    if is_within_limits(plan) && refers_inside(plan) {
        has_distinct_names(alloc, plan)
    } else {
        Ok(false)
    }
}

// The number of the first part that fails.
fn first_bad(alloc: Global, plan: &Plan) -> Result<Option<u8>, Mem>
    ensures value { IfOk result (λ o. o ≡ first_bad plan.now) }
    ensures datums { OnOk result (OnTrue (is_well_formed plan.now) (HasDatums plan.now)) }
{
    if !is_well_formed(alloc, plan)? {
        return Ok(Some(1));
    }
    if !has_ranks(plan) {
        return Ok(Some(2));
    }
    if !has_one_connection_each(alloc, plan)? {
        return Ok(Some(3));
    }
    if !has_initial_values(plan) {
        return Ok(Some(4));
    }
    if !has_kinds_of_connections(alloc, plan)? {
        return Ok(Some(5));
    }
    Ok(None)
}

/// Whether the plan is valid: `Bad` has the number of the first of the five parts that fails; or want of memory.
/// 1: all numbers, counts and the nesting of initial values are within the limits, references are in range,
/// simulators' ids are distinct and have no `.`, and entities' names are distinct within a simulator and neither empty
/// nor `time`.
/// 2: the ranks are 0 to n - 1, each once, and plain connections and asynchronous pairs go to a higher one.
/// 3: from one entity at most one connection leads to an attribute of another.
/// 4: where a connection is time-shifted and persistent it has an initial value, and where it is plain none.
/// 5: outputs persist and inputs trigger as the simulators' kinds say, and alike for each entity's attribute.
pub fn check_plan(alloc: Global, plan: &Plan) -> Result<(), PlanFault>
    ensures valid { OnOk result (IsValidPlan plan.now) }
    ensures fault { IfErr result (FaultOf plan.now) }
    ensures tested { AnswersTo (first_bad plan.now) result }
{
    match first_bad(alloc, plan)? {
        None => Ok(()),
        Some(part) => Err(PlanFault::Bad(part)),
    }
}
