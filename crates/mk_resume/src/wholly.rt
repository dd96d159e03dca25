//! A resumed run whose simulators are all within the program: over a fleet without links.
ghost use Rattle.std.specs.Prelude.{◌≡◌, ℕ, [], All, map, true};
ghost use Rattle.mk_launch.specs.Ready.{IsPrepared};
ghost use Rattle.mk_run_crew.specs.Attempts.{attempt};
ghost use Rattle.mk_local.specs.Kinds.{name_of};
ghost use Rattle.mk_local.specs.Registries.{rows_in};
ghost use Rattle.mk_record_read.specs.Seen.{came};
ghost use Rattle.mk_record_read.specs.Steps.{IsKnown};
ghost use Rattle.mk_run_crew.specs.Wholly.{is_wholly_within};
ghost use Rattle.mk_scenario.specs.Wellformed.{IsWellformed};
ghost use Rattle.mk_setup.specs.Ranked.{AreRanksOf};
ghost use Rattle.mk_resume.specs.Resumed.{ResumesAs};
ghost use Rattle.mk_resume.specs.Showings.{ShowsAsResumed};

use crate::resuming::{ResumeRan, resume_over};
use mk_base::{LinkNo, List};
use mk_local::Registry;
use mk_onlooker::Onlooker;
use mk_outside::{Fleet, Listened, ReadLink, Start, Started, Waited, WriteLink};
use mk_record_read::Saved;
use mk_scenario::Scenario;
use std::alloc::Global;
use std::sync::Wait;

// A fleet that starts no link, never fails, and tells no log. A link that it was given is open until it is closed.
#[derive(Drop)]
struct NoFleet {
    link: Option<LinkNo>,
}

impl Fleet for NoFleet {
    ghost use Rattle.std.specs.Prelude.{None};
    ghost use Rattle.mk_resume.specs.inner.Given.{given};

    ghost faults = { λ _. 0 };

    ghost started = { λ _. 0 };

    ghost open_links = { λ fleet. given fleet.link };

    ghost log = { λ _. None };

    ghost asked = { λ _. None };

    fn listen(&mut self) -> Listened {
        Listened::Mem
    }

    fn start(&mut self, _start: &Start) -> Started {
        Started::Mem
    }

    fn read(&mut self, _link: LinkNo, _into: &mut [u8]) -> ReadLink {
        ReadLink::NotYet
    }

    fn write(&mut self, _link: LinkNo, _bytes: &[u8]) -> WriteLink {
        WriteLink::NotYet
    }

    fn wait(&mut self, _links: &[LinkNo], _ready: &mut [bool]) -> Waited {
        Waited::Mem
    }

    fn close(&mut self, _link: LinkNo) {
        self.link = None;
    }
}

// Goes on with a run whose simulators are all within the program. What it comes to is what it would
// come to over any fleet with which nothing is done.
pub fn resume_within<R: Wait, O: Onlooker>(
    rt: &R,
    alloc: Global,
    scenario: Scenario,
    ranks: List<u32>,
    saved: Saved,
    kinds: &Registry,
    onlooker: &mut O,
) -> ResumeRan
    requires wellformed { IsWellformed scenario }
    requires ranked { AreRanksOf scenario ranks }
    requires prepared { IsPrepared scenario (map name_of (rows_in kinds.now)) }
    requires known { All (IsKnown saved.plan) (map came saved.arrivals) }
    requires wholly { is_wholly_within scenario ≡ true }
    ensures ran { (started faults : ℕ)
        → ResumesAs (attempt started scenario ranks (rows_in kinds.now) []) saved result.taken
        result.plan result.journal faults faults
        result.end }
    ensures shown { ShowsAsResumed O.looks saved result.taken result.plan result.journal onlooker.old
        onlooker.new }
{
    let mut none = NoFleet { link: None };
    resume_over(
        rt, alloc, scenario, ranks, saved, &mut none, kinds, onlooker,
    )
}
