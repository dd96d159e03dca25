//! A run over a fleet in memory, and what it comes to.

use mk_base::Mem;
use mk_local::Registry;
use mk_onlooker::Nobody;
use mk_outside::Fleet;
use mosaikrun_run::ran;
use mosaikrun_samples::{Outcome, outcome_of};
use std::alloc::Global;
use std::sync::Wait;

/// What the run of a scenario over the fleet comes to, its simulators within the program being of these kinds.
pub fn told<F: Fleet, R: Wait>(
    rt: &R,
    alloc: Global,
    kinds: &Registry,
    scenario: &str,
    fleet: &mut F,
) -> Result<Outcome, Mem> {
    let mut nobody = Nobody;
    let told = ran(
        rt,
        alloc,
        kinds,
        scenario.as_bytes(),
        fleet,
        true,
        &mut nobody,
    );
    let outcome = outcome_of(alloc, &told);
    drop(told);
    outcome
}

/// The same where no kind is there.
pub fn told_alone<F: Fleet, R: Wait>(
    rt: &R,
    alloc: Global,
    scenario: &str,
    fleet: &mut F,
) -> Result<Outcome, Mem> {
    let kinds = Registry::new(alloc);
    told(rt, alloc, &kinds, scenario, fleet)
}
