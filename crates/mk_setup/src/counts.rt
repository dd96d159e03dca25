//! How many requests the simulators get.
ghost use Rattle.std.specs.Prelude.{◌≡◌, ℕ, ◌+◌, ◌<◌, ◌^◌, IfOk, Some, length, replicate, slice_get, slice_set};
ghost use Rattle.mk_scenario.specs.Wellformed.{IsWellformed};
ghost use Rattle.mk_setup.specs.Requests.{first_ids};

use mk_base::{List, Mem};
use mk_scenario::Scenario;
use std::alloc::Global;

// The same number for each simulator.
pub fn equal_counts(alloc: Global, sims: usize, count: u64) -> Result<List<u64>, Mem>
    ensures { IfOk result (λ counts. counts ≡ replicate sims count) }
{
    let mut counts = List::new(alloc);
    for _made in 0..sims {
        counts.push(count)?;
    }
    Ok(counts)
}

// One more for this simulator.
pub fn count_one(counts: &mut List<u64>, sim: usize)
    requires there { sim < length counts.old }
    requires few { (n : ℕ) → slice_get counts.old sim ≡ Some n → n < 2 ^ 32 }
    ensures { (n : ℕ) → slice_get counts.old sim ≡ Some n
        → counts.new ≡ slice_set counts.old sim (n + 1) }
{
    let next = *counts.at(sim) + 1;
    counts.set(sim, next);
}

// How many requests each simulator gets before the run: one for each of its groups, and two more.
pub fn first_ids(alloc: Global, scenario: &Scenario) -> Result<List<u64>, Mem>
    requires { IsWellformed scenario.now }
    ensures { IfOk result (λ ids. ids ≡ first_ids scenario.now) }
{
    let mut ids = equal_counts(alloc, scenario.sims.len(), 2)?;
    for group in scenario.groups.as_slice() {
        count_one(&mut ids, group.sim.0 as usize);
    }
    Ok(ids)
}
