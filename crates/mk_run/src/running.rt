//! A run over a fleet.
ghost use Rattle.std.specs.Prelude.{◌≡◌, ◌≤◌, List, [], None, Some, map, true, not};
ghost use Rattle.mk_outside.specs.declared.fleet.LogEntry.{LogEntry};
ghost use Rattle.mk_outside.specs.Logs.{Adds};
ghost use Rattle.mk_scenario.specs.Wellformed.{IsWellformed};
ghost use Rattle.mk_launch.specs.Ready.{IsPrepared};
ghost use Rattle.mk_launch.specs.Starts.{AreNumbered, links_in};
ghost use Rattle.mk_run_crew.specs.Attempts.{attempt};
ghost use Rattle.mk_local.specs.Kinds.{name_of};
ghost use Rattle.mk_local.specs.Registries.{rows_in};
ghost use Rattle.mk_run_links.specs.Places.{without_all};
ghost use Rattle.mk_plan.specs.Plans.{IsValidPlan};
ghost use Rattle.mk_setup.specs.Ranked.{AreRanksOf};
ghost use Rattle.mk_run_local.specs.Seen.{AreOf};
ghost use Rattle.mk_run_crew.specs.Seen.{crew_of, within_of};
ghost use Rattle.mk_run_crew.specs.Started.{StartsLinks};
ghost use Rattle.mk_run_crew.specs.Wholly.{is_wholly_within};
ghost use Rattle.mk_run.specs.Outcomes.{IsWithinOutcome};
ghost use Rattle.mk_run.specs.Ran.{EndsAtStart, RunsAs};
ghost use Rattle.mk_onlooker.specs.Showings.{IsShownIn};
ghost use Rattle.mk_run.specs.inner.Underway.{IsUnderway, Setting};
ghost use Rattle.mk_run.specs.inner.Turns.{AreLinksOpen, PlanRunsAs};

use crate::driving::drive;
use crate::outcome::{Outcome, Ran};
use crate::wholly::run_local;
use mk_base::List;
use mk_local::Registry;
use mk_onlooker::Onlooker;
use mk_outside::Fleet;
use mk_plan::Plan;
use mk_run_crew::{Crew, is_wholly_within};
use mk_scenario::Scenario;
use mk_sched::Core;
use std::alloc::Global;
use std::sync::Wait;

/// Runs a prepared scenario with its ranks over a fleet. The simulators are started and the handshake is made with
/// each; then whoever is ready is asked, one message is heard, and so on until the first outcome. It may wait for
/// others. Simulators within the program are of these kinds. At the end each link that was started is stopped, if its
/// channel was there, and closed, for which no memory is needed: where the open links have numbers of started ones,
/// they are those from before.
///
/// The plan and the journal are there wherever the handshake was made and there was memory for the run. Where all
/// simulators are within the program the fleet isn't used: it is `run_local`.
///
/// The onlooker is shown the whole journal: first what was asked before anything was heard, then batch by batch, each a
/// message and what was sent because of it. All that is there has been shown whenever the run waits for others, and
/// before the simulators are stopped.
pub fn run<F: Fleet, R: Wait, O: Onlooker>(
    rt: &R,
    alloc: Global,
    scenario: Scenario,
    ranks: List<u32>,
    fleet: &mut F,
    kinds: &Registry,
    onlooker: &mut O,
) -> Ran
    requires wellformed { IsWellformed scenario }
    requires ranked { AreRanksOf scenario ranks }
    requires prepared { IsPrepared scenario (map name_of (rows_in kinds.now)) }
    ensures count { F.faults fleet.old ≤ F.faults fleet.new }
    ensures ran { (entries : List LogEntry) × Adds entries (F.log fleet.old) (F.log fleet.new)
        × RunsAs (attempt (F.started fleet.old) scenario ranks (rows_in kinds.now) entries)
        result.plan result.journal (F.faults fleet.old)
        (F.faults fleet.new) result.outcome
        × StartsLinks scenario (F.started fleet.old) (F.started fleet.new)
        (EndsAtStart result.plan entries result.outcome) }
    ensures closed { AreNumbered (F.started fleet.old) (F.open_links fleet.old)
        → F.open_links fleet.new ≡ F.open_links fleet.old }
    ensures shown { IsShownIn O.looks (not (is_wholly_within scenario)) result.plan result.journal
        onlooker.old onlooker.new }
    ensures within { is_wholly_within scenario ≡ true → (fleet.new ≡ fleet.old)
        × IsWithinOutcome result.outcome }
{
    if is_wholly_within(&scenario) {
        return run_local(alloc, scenario, ranks, kinds, onlooker);
    }
    match Crew::begin(rt, alloc, scenario, ranks, fleet, kinds) {
        Ok((crew, plan)) => run_plan(rt, alloc, plan, crew, fleet, kinds, onlooker),
        Err(halt) => Ran {
            outcome: Outcome::from(halt),
            plan: None,
            journal: None,
        },
    }
}

// Runs a plan over the crew that the handshake left, and stops it.
fn run_plan<F: Fleet, R: Wait, O: Onlooker>(
    rt: &R,
    alloc: Global,
    plan: Plan,
    crew: Crew,
    fleet: &mut F,
    kinds: &Registry,
    onlooker: &mut O,
) -> Ran
    requires valid { IsValidPlan plan }
    requires unhalted { crew.halt ≡ None }
    requires known { AreOf (rows_in kinds.now) (within_of crew) }
    requires underway { (T : Setting) × (log : List LogEntry)
        × IsUnderway T plan [] log (crew_of crew) crew.sims
        × AreLinksOpen T (F.open_links fleet.old) }
    ensures count { F.faults fleet.old ≤ F.faults fleet.new }
    ensures ran { (entries : List LogEntry) × Adds entries (F.log fleet.old) (F.log fleet.new)
        × PlanRunsAs plan crew entries (F.faults fleet.old)
        (F.faults fleet.new) result.plan result.journal result.outcome }
    ensures shown { IsShownIn O.looks true result.plan result.journal onlooker.old onlooker.new }
    ensures same_count { F.started fleet.new ≡ F.started fleet.old }
    ensures closed { F.open_links fleet.new
        ≡ without_all (links_in crew.places) (F.open_links fleet.old) }
{
    let mut crew = crew;
    match Core::new(alloc, plan) {
        Ok(core) => {
            let mut core = core;
            let outcome = drive(rt, &mut core, &mut crew, fleet, kinds, onlooker);
            crew.stop(fleet);
            let (plan, journal) = core.into_parts();
            Ran {
                outcome,
                plan: Some(plan),
                journal: Some(journal),
            }
        }
        Err(_) => {
            crew.stop(fleet);
            Ran {
                outcome: Outcome::Mem,
                plan: None,
                journal: None,
            }
        }
    }
}
