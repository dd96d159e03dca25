//! What a setup keeps, but for the fault that it has met.
ghost use Rattle.std.specs.Prelude.{◌≡◌, ◌+◌, false, length};
ghost use Rattle.mk_scenario.specs.Wellformed.{IsWellformed};
ghost use Rattle.mk_setup.specs.inner.Counts.{IsCounted, IsToSim};
ghost use Rattle.mk_setup.specs.inner.Stages.{IsStage};

use crate::counts::count_one;
use crate::stage::{Stage, stage_of};
use mk_base::{List, SimNo};
use mk_entities::Entities;
use mk_meta::Meta;
use mk_plan::Plan;
use mk_scenario::Scenario;
use std::alloc::Global;

#[derive(Drop)]
pub struct Progress {
    pub alloc: Global,
    pub scenario: Scenario,
    pub ranks: List<u32>,
    pub metas: List<Meta>,
    pub entities: Entities,
    // How many requests were answered, and whether the next was made.
    pub answered: usize,
    pub asked: bool,
    // How many requests to each simulator were answered.
    pub ids: List<u64>,
    // The plan, from the test of its connections on until it is given.
    pub plan: Option<Plan>,
}

// The stage of the next request, or of the one that is outstanding.
pub fn stage(progress: &Progress) -> Stage
    requires { IsWellformed progress.now.scenario }
    ensures { IsStage (length progress.now.scenario.sims)
        (length progress.now.scenario.groups) progress.now.answered result }
{
    stage_of(
        progress.scenario.sims.len(),
        progress.scenario.groups.len(),
        progress.answered,
    )
}

// The next request, which goes to this simulator, was answered.
pub fn note_reply(progress: &mut Progress, sim: SimNo)
    requires counted { IsCounted progress.old.scenario progress.old.answered progress.old.ids }
    requires next { IsToSim progress.old.scenario progress.old.answered sim.0 }
    ensures moved { progress.new
        ≡ record progress.old {
          ids = progress.new.ids;
          answered = progress.old.answered + 1;
          asked = false;
        } }
    ensures counted { IsCounted progress.old.scenario (progress.old.answered + 1) progress.new.ids }
{
    count_one(&mut progress.ids, sim.0 as usize);
    progress.answered += 1;
    progress.asked = false;
}
