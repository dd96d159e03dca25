//! Whether the ids of simulators and the names of entities are distinct and may be such.
ghost use Rattle.std.specs.Prelude.{◌≡◌, not, IfOk};
ghost use Rattle.std.specs.List.{list_all};
ghost use Rattle.mk_base.specs.Lists.{same_text};
ghost use Rattle.mk_base.specs.Names.{is_eid};
ghost use Rattle.mk_plan_check.specs.Tests.{has_no_dot, sims_apart, eids_apart, has_distinct_names};

use crate::agreement::are_apart;
use crate::marks::names;
use mk_base::{Mem, is_eid};
use mk_plan::{Plan, PlanSim};
use std::alloc::Global;

fn is_apart(sim: &PlanSim, later: &[PlanSim]) -> bool
    ensures { result ≡ list_all (λ t. not (same_text sim.now.id t.id)) later.now }
{
    later.iter().all(|other| sim.id.bytes() != other.id.bytes())
}

fn sims_apart(plan: &Plan) -> bool
    ensures { result ≡ sims_apart plan.now }
{
    let mut left = plan.sims.as_slice();
    'pairs: while let Some((sim, later)) = left.split_first() {
        if !is_apart(sim, later) {
            return false;
        }
        left = later;
    }
    true
}

fn has_no_dot(id: &[u8]) -> bool
    ensures { result ≡ has_no_dot id.now }
{
    id.iter().all(|byte| *byte != b'.')
}

fn have_no_dots(plan: &Plan) -> bool
    ensures { result ≡ list_all (λ s. has_no_dot s.id) plan.now.sims }
{
    plan.sims
        .as_slice()
        .iter()
        .all(|sim| has_no_dot(sim.id.bytes()))
}

fn are_named(plan: &Plan) -> bool
    ensures { result ≡ list_all (λ n. is_eid n.eid) plan.now.entities }
{
    plan.entities
        .as_slice()
        .iter()
        .all(|entity| is_eid(entity.eid.bytes()))
}

fn eids_apart(alloc: Global, plan: &Plan) -> Result<bool, Mem>
    ensures { IfOk result (λ holds. holds ≡ eids_apart plan.now) }
{
    Ok(are_apart(names(alloc, plan)?))
}

pub(crate) fn has_distinct_names(alloc: Global, plan: &Plan) -> Result<bool, Mem>
    ensures { IfOk result (λ holds. holds ≡ has_distinct_names plan.now) }
{
    if sims_apart(plan) && have_no_dots(plan) && are_named(plan) {
        eids_apart(alloc, plan)
    } else {
        Ok(false)
    }
}
