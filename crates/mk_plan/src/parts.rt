//! What a plan says of an entity and of a simulator.
ghost use Rattle.std.specs.Prelude.{◌≡◌, ◌<◌, length, IfOk};
ghost use Rattle.std.specs.String.{string_bytes};
ghost use Rattle.mk_plan.specs.Plans.{RefersInside, full_id, kind_of, owner};

use crate::Plan;
use mk_base::{Mem, SimKind, SimNo};
use std::alloc::Global;

impl Plan {
    /// The simulator of an entity.
    pub fn owner(&self, entity: u32) -> SimNo
        requires references { RefersInside self.now }
        requires in_range { entity < length self.now.entities }
        ensures { result.0 ≡ owner self.now entity }
    {
        let model = self.entities.at(entity as usize).model;
        self.models.at(model as usize).sim
    }

    /// The type of a simulator; time-based where there is no simulator of this number.
    pub fn kind_of(&self, sim: SimNo) -> SimKind
        ensures { result ≡ kind_of self.now sim.0 }
    {
        match self.sims.get(sim.0 as usize) {
            Some(sim) => sim.kind,
            None => SimKind::TimeBased,
        }
    }
}

/// An entity's name in the whole plan: the id of its simulator, a dot, and its own name. Fails for want of memory
/// alone.
pub fn full_id(alloc: Global, plan: &Plan, entity: u32) -> Result<String, Mem>
    requires references { RefersInside plan.now }
    requires there { entity < length plan.now.entities }
    ensures { IfOk result (λ id. string_bytes id ≡ full_id plan.now entity) }
{
    let sim = plan.sims.at(plan.owner(entity).0 as usize);
    let eid = &plan.entities.at(entity as usize).eid;
    Ok(format!(in alloc; "{}.{}", sim.id.as_str(), eid.as_str())?)
}
