//! A run that goes on from a record over a fleet in memory, and what it comes to.
ghost use Rattle.std.specs.Prelude.{◌≡◌, map};
ghost use Rattle.mk_local.specs.Kinds.{name_of};
ghost use Rattle.mk_local.specs.Registries.{rows_in};
ghost use Rattle.mk_scenario.specs.Wellformed.{IsWellformed};
ghost use Rattle.mosaikrun_check.specs.Runnable.{IsRunnable};
ghost use Rattle.mosaikrun_sayings.specs.Sayings.{ids_of};

use mk_base::Mem;
use mk_local::Registry;
use mk_onlooker::Nobody;
use mk_outside::Fleet;
use mosaikrun_endings::Ending;
use mosaikrun_resume::{Study, resumed, study_of};
use mosaikrun_samples::{Outcome, outcome_of, refused};
use std::alloc::Global;
use std::sync::Wait;

/// What the run of a scenario comes to that goes on from a record, over the fleet, no kind being there.
pub fn told<F: Fleet, R: Wait>(
    rt: &R,
    alloc: Global,
    scenario: &str,
    old: &str,
    fleet: &mut F,
) -> Result<Outcome, Mem> {
    let kinds = Registry::new(alloc);
    let outcome = told_with(rt, alloc, &kinds, scenario, old, fleet);
    drop(kinds);
    outcome
}

fn told_with<F: Fleet, R: Wait>(
    rt: &R,
    alloc: Global,
    kinds: &Registry,
    scenario: &str,
    old: &str,
    fleet: &mut F,
) -> Result<Outcome, Mem> {
    match study_of(alloc, kinds, scenario.as_bytes()) {
        Ok(study) => gone_on(rt, alloc, kinds, study, old, fleet),
        Err(ending) => ended(alloc, ending),
    }
}

// What it comes to that ends so before it runs.
fn ended(alloc: Global, ending: Ending) -> Result<Outcome, Mem> {
    let outcome = refused(alloc, &ending);
    drop(ending);
    outcome
}

fn gone_on<F: Fleet, R: Wait>(
    rt: &R,
    alloc: Global,
    kinds: &Registry,
    study: Study,
    old: &str,
    fleet: &mut F,
) -> Result<Outcome, Mem>
    requires wellformed { IsWellformed study.scenario }
    requires runnable { IsRunnable (map name_of (rows_in kinds.now)) study.scenario study.ranks }
    requires ids { study.ids ≡ ids_of study.scenario }
{
    let mut nobody = Nobody;
    let told = resumed(
        rt,
        alloc,
        kinds,
        study,
        old.as_bytes(),
        fleet,
        true,
        &mut nobody,
    );
    let outcome = outcome_of(alloc, &told);
    drop(told);
    outcome
}
