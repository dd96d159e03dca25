//! What is written of a plan.
ghost use Rattle.std.specs.Prelude.{◌≡◌, ◌++◌, OnOk};
ghost use Rattle.mk_plan.specs.Plans.{sim_id};

use crate::Plan;
use mk_base::{Mem, SimNo, put};

/// Appends a simulator's id; nothing where there is no simulator of this number. Fails for want of memory alone.
pub fn put_id(out: &mut Vec<u8>, plan: &Plan, sim: SimNo) -> Result<(), Mem>
    ensures { OnOk result (out.new.items ≡ out.old.items ++ sim_id plan.now sim.0) }
{
    match plan.sims.get(sim.0 as usize) {
        Some(part) => put(out, part.id.as_str()),
        None => Ok(()),
    }
}
