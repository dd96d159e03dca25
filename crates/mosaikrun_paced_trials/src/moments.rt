//! The moments of the counter's steps, and what the clock told when each was sent.
ghost use Rattle.std.specs.Prelude.{map};
ghost use Rattle.mk_local.specs.Kinds.{name_of};
ghost use Rattle.mk_local.specs.Registries.{rows_in};
ghost use Rattle.mk_scenario.specs.Wellformed.{IsWellformed};
ghost use Rattle.mosaikrun_check.specs.Runnable.{IsRunnable};

use crate::pacing::{Clock, FACTOR, ticking};
use mk_base::{Mem, SimNo, Tier};
use mk_fakes::MemFleet;
use mk_local::Registry;
use mk_onlooker::Nobody;
use mk_pace::{Moment, PaceRan, paced};
use mosaikrun_resume::{Study, study_of};
use mosaikrun_samples::{COUNTER, TALK, replies_of};
use std::alloc::Global;
use std::sync::Wait;

const CLOCK: Clock = Clock {
    tick: 0,
    naps: 1000,
};

// Each step of the counter is sent when the clock tells its moment.
const MOMENTS: [Moment; 3] = [
    Moment {
        sim: SimNo(0),
        at: Tier { time: 0, tier: 0 },
        moment: 0,
        told: 0,
    },
    Moment {
        sim: SimNo(0),
        at: Tier { time: 1, tier: 0 },
        moment: 1000,
        told: 1000,
    },
    Moment {
        sim: SimNo(0),
        at: Tier { time: 2, tier: 0 },
        moment: 2000,
        told: 2000,
    },
];

fn fleet(alloc: Global) -> Result<MemFleet, Mem> {
    let chunks = replies_of(alloc, &TALK, 1000)?;
    ticking(alloc, chunks, CLOCK)
}

fn ran<R: Wait>(
    rt: &R,
    alloc: Global,
    kinds: &Registry,
    study: Study,
    fleet: &mut MemFleet,
) -> PaceRan
    requires wellformed { IsWellformed study.scenario }
    requires runnable { IsRunnable (map name_of (rows_in kinds.now)) study.scenario study.ranks }
{
    let Study {
        scenario,
        ranks,
        ids,
    } = study;
    drop(ids);
    let mut nobody = Nobody;
    paced(
        rt,
        alloc,
        scenario,
        ranks,
        fleet,
        kinds,
        FACTOR,
        Some(0),
        &mut nobody,
    )
}

fn are_moments(ran: &PaceRan) -> bool {
    ran.moments.as_slice() == &MOMENTS[..]
}

fn is_paced<R: Wait>(
    rt: &R,
    alloc: Global,
    kinds: &Registry,
    study: Study,
    fleet: &mut MemFleet,
) -> bool
    requires wellformed { IsWellformed study.scenario }
    requires runnable { IsRunnable (map name_of (rows_in kinds.now)) study.scenario study.ranks }
{
    let ran = ran(rt, alloc, kinds, study, fleet);
    let right = are_moments(&ran);
    drop(ran);
    right
}

fn is_paced_over<R: Wait>(rt: &R, alloc: Global, kinds: &Registry, fleet: &mut MemFleet) -> bool {
    match study_of(alloc, kinds, COUNTER.as_bytes()) {
        Ok(study) => is_paced(rt, alloc, kinds, study, fleet),
        Err(ending) => {
            drop(ending);
            false
        }
    }
}

fn is_paced_with<R: Wait>(rt: &R, alloc: Global, kinds: &Registry) -> bool {
    match fleet(alloc) {
        Ok(mut fleet) => {
            let right = is_paced_over(rt, alloc, kinds, &mut fleet);
            drop(fleet);
            right
        }
        Err(_) => false,
    }
}

fn are_right<R: Wait>(rt: &R, alloc: Global) -> bool {
    let kinds = Registry::new(alloc);
    let right = is_paced_with(rt, alloc, &kinds);
    drop(kinds);
    right
}

#[test]
fn each_step_is_sent_at_its_moment(rt: HostRuntime) {
    assert!(rt; are_right(&rt, rt.alloc()));
}
