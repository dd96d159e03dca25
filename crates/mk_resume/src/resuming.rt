//! A resumed run over a fleet.
ghost use Rattle.std.specs.Prelude.{◌≡◌, ◌≤◌, All, List, None, map, true};
ghost use Rattle.mk_outside.specs.declared.fleet.LogEntry.{LogEntry};
ghost use Rattle.mk_outside.specs.Counts.{HasRisen};
ghost use Rattle.mk_outside.specs.Logs.{Adds};
ghost use Rattle.mk_scenario.specs.Wellformed.{IsWellformed};
ghost use Rattle.mk_launch.specs.Ready.{IsPrepared};
ghost use Rattle.mk_launch.specs.Starts.{AreNumbered, links_in};
ghost use Rattle.mk_run_crew.specs.Attempts.{Attempt, attempt};
ghost use Rattle.mk_local.specs.Kinds.{name_of};
ghost use Rattle.mk_local.specs.Registries.{rows_in};
ghost use Rattle.mk_record_read.specs.Seen.{came};
ghost use Rattle.mk_record_read.specs.Steps.{IsKnown};
ghost use Rattle.mk_run_links.specs.Places.{AreOpen, without_all};
ghost use Rattle.mk_setup.specs.Ranked.{AreRanksOf};
ghost use Rattle.mk_run_local.specs.Seen.{AreOf};
ghost use Rattle.mk_run_crew.specs.Seen.{within_of};
ghost use Rattle.mk_run_crew.specs.Started.{StartsLinks};
ghost use Rattle.mk_run_crew.specs.Wholly.{is_wholly_within};
ghost use Rattle.mk_run.specs.inner.Underway.{Setting};
ghost use Rattle.mk_run.specs.inner.Turns.{AreLinksOpen, IsStill};
ghost use Rattle.mk_resume_loop.specs.inner.Turns.{IsSized};
ghost use Rattle.mk_resume.specs.Resumed.{EndsAtStart, ResumesAs};
ghost use Rattle.mk_resume.specs.Showings.{ShowsAsResumed};
ghost use Rattle.mk_resume.specs.inner.Going.{CatchesUpAs, GoesOnAs, IsFresh, IsStarted, PlanResumesAs, ShowsOnward};
ghost use Rattle.mk_onlooker.specs.Showings.{IsShown};

use crate::accepting::{Accepted, accept, nothing_left};
use crate::wholly::resume_within;
use mk_base::List;
use mk_local::Registry;
use mk_onlooker::{Onlooker, show};
use mk_outside::Fleet;
use mk_plan::{Journal, Plan};
use mk_record_read::Saved;
use mk_resume_loop::{Behind, ResumeEnd, begin, drive};
use mk_run::Outcome;
use mk_run_crew::{Crew, is_wholly_within};
use mk_scenario::Scenario;
use mk_sched::Core;
use std::alloc::Global;
use std::sync::Wait;

/// What a resumed run comes to: how it ends, whether the record's messages were taken, and its plan
/// and its journal, which are both there or both not. They are there where the messages were taken;
/// and where these met a fault of the core, which is then the end, with the journal up to there. A
/// record is to be saved exactly where the messages were taken.
#[derive(Drop)]
pub struct ResumeRan {
    pub end: ResumeEnd,
    pub taken: bool,
    pub plan: Option<Plan>,
    pub journal: Option<Journal>,
}

/// Goes on with the run of a prepared scenario with its ranks that a record was saved of, over a
/// fleet whose open links have the numbers of started ones. The simulators are started anew and the
/// handshake is made with each, the plan is compared with the record's, and a core takes the
/// record's messages. Then each simulator is sent again what the journal has for it, an item once
/// all messages before it have come; its messages are compared with the saved ones; and where it
/// has sent all of these again, its further messages go to the core, until the first end.
/// Simulators within the program are of these kinds. At the end each link that was started is
/// stopped and closed, for which no memory is needed. Where all simulators are within the program
/// nothing is done with the fleet.
///
/// The onlooker is shown the journal that the record's messages made, once these were taken, with
/// what was sent then; and from there on whatever the journal gets, before anything is waited for
/// and at the end. Where they weren't taken it is shown nothing.
///
/// It ends as a run does, or by a record that isn't this run's, or by another message; memory may be
/// wanting at any time. The messages of the record are known ones, as `read_record` ensures.
pub fn resume<F: Fleet, R: Wait, O: Onlooker>(
    rt: &R,
    alloc: Global,
    scenario: Scenario,
    ranks: List<u32>,
    saved: Saved,
    fleet: &mut F,
    kinds: &Registry,
    onlooker: &mut O,
) -> ResumeRan
    requires wellformed { IsWellformed scenario }
    requires ranked { AreRanksOf scenario ranks }
    requires prepared { IsPrepared scenario (map name_of (rows_in kinds.now)) }
    requires known { All (IsKnown saved.plan) (map came saved.arrivals) }
    ensures count { F.faults fleet.old ≤ F.faults fleet.new }
    ensures ran { (entries : List LogEntry) × Adds entries (F.log fleet.old) (F.log fleet.new)
        × ResumesAs (attempt (F.started fleet.old) scenario ranks (rows_in kinds.now) entries) saved
        result.taken result.plan result.journal
        (F.faults fleet.old) (F.faults fleet.new) result.end
        × StartsLinks scenario (F.started fleet.old) (F.started fleet.new)
        (EndsAtStart result.plan entries result.end) }
    ensures closed { AreNumbered (F.started fleet.old) (F.open_links fleet.old)
        → F.open_links fleet.new ≡ F.open_links fleet.old }
    ensures shown { ShowsAsResumed O.looks saved result.taken result.plan result.journal onlooker.old
        onlooker.new }
    ensures within { is_wholly_within scenario ≡ true → fleet.new ≡ fleet.old }
{
    if is_wholly_within(&scenario) {
        return resume_within(rt, alloc, scenario, ranks, saved, kinds, onlooker);
    }
    resume_over(rt, alloc, scenario, ranks, saved, fleet, kinds, onlooker)
}

// Goes on with the run over a fleet, whether or not it is used.
pub fn resume_over<F: Fleet, R: Wait, O: Onlooker>(
    rt: &R,
    alloc: Global,
    scenario: Scenario,
    ranks: List<u32>,
    saved: Saved,
    fleet: &mut F,
    kinds: &Registry,
    onlooker: &mut O,
) -> ResumeRan
    requires wellformed { IsWellformed scenario }
    requires ranked { AreRanksOf scenario ranks }
    requires prepared { IsPrepared scenario (map name_of (rows_in kinds.now)) }
    requires known { All (IsKnown saved.plan) (map came saved.arrivals) }
    ensures count { F.faults fleet.old ≤ F.faults fleet.new }
    ensures ran { (entries : List LogEntry) × Adds entries (F.log fleet.old) (F.log fleet.new)
        × ResumesAs (attempt (F.started fleet.old) scenario ranks (rows_in kinds.now) entries) saved
        result.taken result.plan result.journal
        (F.faults fleet.old) (F.faults fleet.new) result.end
        × StartsLinks scenario (F.started fleet.old) (F.started fleet.new)
        (EndsAtStart result.plan entries result.end) }
    ensures closed { AreNumbered (F.started fleet.old) (F.open_links fleet.old)
        → F.open_links fleet.new ≡ F.open_links fleet.old }
    ensures shown { ShowsAsResumed O.looks saved result.taken result.plan result.journal onlooker.old
        onlooker.new }
{
    match Crew::begin(rt, alloc, scenario, ranks, fleet, kinds) {
        Ok((crew, plan)) => resume_plan(rt, alloc, plan, saved, crew, fleet, kinds, onlooker),
        Err(halt) => nothing_left(ResumeEnd::Outcome(Outcome::from(halt))),
    }
}

// Goes on over the crew that the handshake left, with its plan, and stops it.
fn resume_plan<F: Fleet, R: Wait, O: Onlooker>(
    rt: &R,
    alloc: Global,
    plan: Plan,
    saved: Saved,
    crew: Crew,
    fleet: &mut F,
    kinds: &Registry,
    onlooker: &mut O,
) -> ResumeRan
    requires known { All (IsKnown saved.plan) (map came saved.arrivals) }
    requires started { (A : Attempt) × (A.rows ≡ rows_in kinds.now) × IsStarted A crew plan }
    requires open { AreOpen crew.channels (F.open_links fleet.old) }
    ensures count { F.faults fleet.old ≤ F.faults fleet.new }
    ensures ran { (entries : List LogEntry) × Adds entries (F.log fleet.old) (F.log fleet.new)
        × PlanResumesAs plan saved crew entries (F.faults fleet.old)
        (F.faults fleet.new) result.taken result.plan result.journal result.end }
    ensures shown { ShowsAsResumed O.looks saved result.taken result.plan result.journal onlooker.old
        onlooker.new }
    ensures same_count { F.started fleet.new ≡ F.started fleet.old }
    ensures closed { F.open_links fleet.new
        ≡ without_all (links_in crew.places) (F.open_links fleet.old) }
{
    match accept(alloc, plan, saved) {
        Accepted::Onward(core, behind) => go_on(
            rt, alloc, core, behind, crew, fleet, kinds, onlooker,
        ),
        Accepted::Refused(ran) => {
            crew.stop(fleet);
            ran
        }
    }
}

// Goes on from a core that has taken a record's messages, and stops the crew.
fn go_on<F: Fleet, R: Wait, O: Onlooker>(
    rt: &R,
    alloc: Global,
    core: Core,
    behind: Behind,
    crew: Crew,
    fleet: &mut F,
    kinds: &Registry,
    onlooker: &mut O,
) -> ResumeRan
    requires going { core.ended ≡ None }
    requires unhalted { crew.halt ≡ None }
    requires known { AreOf (rows_in kinds.now) (within_of crew) }
    requires sized { IsSized core behind }
    requires fresh { (T : Setting) × (log : List LogEntry) × IsFresh T core log crew
        × AreLinksOpen T (F.open_links fleet.old) }
    ensures count { F.faults fleet.old ≤ F.faults fleet.new }
    ensures taken { result.taken ≡ true }
    ensures ran { (entries : List LogEntry) × Adds entries (F.log fleet.old) (F.log fleet.new)
        × GoesOnAs core crew entries (F.faults fleet.old)
        (F.faults fleet.new) result.plan result.journal result.end }
    ensures shown { ShowsOnward O.looks core result.plan result.journal onlooker.old onlooker.new }
    ensures same_count { F.started fleet.new ≡ F.started fleet.old }
    ensures closed { F.open_links fleet.new
        ≡ without_all (links_in crew.places) (F.open_links fleet.old) }
{
    let mut core = core;
    let mut behind = behind;
    let mut crew = crew;
    let end = catch_up(
        rt,
        alloc,
        &mut core,
        &mut crew,
        fleet,
        kinds,
        &mut behind,
        onlooker,
    );
    crew.stop(fleet);
    let (plan, journal) = core.into_parts();
    ResumeRan {
        end,
        taken: true,
        plan: Some(plan),
        journal: Some(journal),
    }
}

// Sends each simulator its first item, and goes on until the first end. All that the journal has is shown.
fn catch_up<F: Fleet, R: Wait, O: Onlooker>(
    rt: &R,
    alloc: Global,
    core: &mut Core,
    crew: &mut Crew,
    fleet: &mut F,
    kinds: &Registry,
    behind: &mut Behind,
    onlooker: &mut O,
) -> ResumeEnd
    requires going { core.old.ended ≡ None }
    requires unhalted { crew.old.halt ≡ None }
    requires known { AreOf (rows_in kinds.now) (within_of crew.old) }
    requires sized { IsSized core.old behind.old }
    requires fresh { (T : Setting) × (log : List LogEntry) × IsFresh T core.old log crew.old
        × AreLinksOpen T (F.open_links fleet.old) }
    ensures count { F.faults fleet.old ≤ F.faults fleet.new }
    ensures same_count { F.started fleet.new ≡ F.started fleet.old }
    ensures same_links { F.open_links fleet.new ≡ F.open_links fleet.old }
    ensures ended { (entries : List LogEntry) × Adds entries (F.log fleet.old) (F.log fleet.new)
        × CatchesUpAs entries
        (HasRisen (F.faults fleet.old) (F.faults fleet.new)) core.old crew.old core.new crew.new
        result }
    ensures shown { IsShown O.looks core.new.plan true core.old.entries core.new.entries onlooker.old
        onlooker.new }
    ensures same_plan { core.new.plan ≡ core.old.plan }
    ensures still { IsStill crew.old crew.new }
{
    match begin(core, crew, kinds, behind) {
        Ok(()) => drive(rt, alloc, core, crew, fleet, kinds, behind, onlooker),
        Err(end) => {
            show(onlooker, core.plan(), core.journal(), 0, true);
            end
        }
    }
}
