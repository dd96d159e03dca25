//! What a plan says of an entity and of a simulator. Of one that it doesn't have each call tells what the definition
//! does: the tests are of any plan, and that each reference is in range is one of them.
ghost use Rattle.std.specs.Prelude.{◌≡◌};
ghost use Rattle.mk_plan.specs.Plans.{owner, eid_of, kind_of, rank_of};

use mk_base::SimKind;
use mk_plan::Plan;

// The simulator of an entity, or the count of simulators where the plan doesn't have it.
pub(crate) fn owner(plan: &Plan, entity: usize) -> usize
    ensures { result ≡ owner plan.now entity }
{
    match plan.entities.as_slice().get(entity) {
        None => plan.sims.len(),
        Some(entity) => match plan.models.as_slice().get(entity.model as usize) {
            None => plan.sims.len(),
            Some(model) => model.sim.0 as usize,
        },
    }
}

pub(crate) fn kind_of(plan: &Plan, sim: usize) -> SimKind
    ensures { result ≡ kind_of plan.now sim }
{
    match plan.sims.as_slice().get(sim) {
        None => SimKind::TimeBased,
        Some(sim) => sim.kind,
    }
}

pub(crate) fn rank_of(plan: &Plan, sim: usize) -> u32
    ensures { result ≡ rank_of plan.now sim }
{
    match plan.sims.as_slice().get(sim) {
        None => 0,
        Some(sim) => sim.rank,
    }
}

// The name of an entity, empty where the plan doesn't have it.
pub(crate) fn eid_of(plan: &Plan, entity: usize) -> &[u8]
    ensures { result.now ≡ eid_of plan.now entity }
{
    match plan.entities.as_slice().get(entity) {
        None => b"".as_slice(),
        Some(entity) => entity.eid.bytes(),
    }
}
