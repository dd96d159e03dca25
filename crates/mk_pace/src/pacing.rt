//! A paced run over a fleet with a clock.
ghost use Rattle.std.specs.Prelude.{◌≡◌, ◌≤◌, ◌∷◌, List, [], IfOk, IfSome, IsSome, None, map, replicate, true};
ghost use Rattle.mk_outside.specs.declared.fleet.LogEntry.{LogEntry};
ghost use Rattle.mk_outside.specs.declared.fleet.LogEntry.TheVariants.{Told};
ghost use Rattle.mk_outside.specs.Counts.{HasRisen};
ghost use Rattle.mk_outside.specs.Logs.{Adds};
ghost use Rattle.mk_scenario.specs.Wellformed.{IsWellformed};
ghost use Rattle.mk_launch.specs.Ready.{IsPrepared};
ghost use Rattle.mk_launch.specs.Starts.{AreNumbered, links_in};
ghost use Rattle.mk_run_crew.specs.Attempts.{Attempt, attempt};
ghost use Rattle.mk_local.specs.Kinds.{name_of};
ghost use Rattle.mk_local.specs.Registries.{rows_in};
ghost use Rattle.mk_plan.specs.Plans.{IsValidPlan, sim_count};
ghost use Rattle.mk_run_laws.specs.Crews.{AreStopped, IsRestless};
ghost use Rattle.mk_run_links.specs.Entries.{AreOn};
ghost use Rattle.mk_run_links.specs.Places.{AreOpen, IsChannelLink, without_all};
ghost use Rattle.mk_setup.specs.Ranked.{AreRanksOf};
ghost use Rattle.mk_run_local.specs.Seen.{AreOf};
ghost use Rattle.mk_run_crew.specs.Seen.{crew_of, within_of};
ghost use Rattle.mk_run_crew.specs.Started.{StartsLinks};
ghost use Rattle.mk_run.specs.inner.Underway.{Setting};
ghost use Rattle.mk_run.specs.inner.Turns.{AreLinksOpen};
ghost use Rattle.mk_pace_laws.specs.declared.end.PaceEnd.TheVariants as pace;
ghost use Rattle.mk_pace_laws.specs.Clocks.{IsRising};
ghost use Rattle.mk_pace_laws.specs.Paced.{EndsAtStart, PacesAs};
ghost use Rattle.mk_pace_loop.specs.inner.Turns.{GoesOn};
ghost use Rattle.mk_pace.specs.inner.Going.{AddsRising, GoesOnAs, IsStarted, PlanPacesAs};
ghost use Rattle.mk_base.specs.Limits.{most_milliseconds};
ghost use Rattle.mk_outside.specs.Fleets.{last_moment};
ghost use Rattle.mk_onlooker.specs.Showings.{IsShownIn};

use mk_base::{List, Mem};
use mk_local::Registry;
use mk_onlooker::Onlooker;
use mk_outside::{Now, Paced};
use mk_pace_laws::{PaceEnd, PaceRan};
use mk_pace_loop::{Waiting, drive};
use mk_plan::Plan;
use mk_run::Outcome;
use mk_run_crew::Crew;
use mk_scenario::Scenario;
use mk_sched::Core;
use std::alloc::Global;
use std::sync::Wait;

/// Runs a prepared scenario with its ranks over a fleet with a clock, as `mk_run::run` does, but
/// that each Step waits for its moment: what the clock told when the handshake was over, and
/// `factor` milliseconds, 1 to 86,400,000, for each unit of time. Order and inputs are those of
/// `run`. What is owed behind a Step that waits is said right behind it. Where nothing comes it
/// sleeps, 5 milliseconds at most. With `strict`, a number of at most 86,400,000 milliseconds, it
/// ends at the first Step that is to be sent next and is later than that.
///
/// The plan and the journal are there wherever the handshake was made, the clock told the origin,
/// and there was memory for the run. A clock that fails ends it as a fleet that fails does.
///
/// The onlooker is shown the whole journal: what was asked before anything was heard, and then what
/// each message brings, before the fleet sleeps. Where there is no journal it is shown nothing.
pub fn paced<F: Paced, R: Wait, O: Onlooker>(
    rt: &R,
    alloc: Global,
    scenario: Scenario,
    ranks: List<u32>,
    fleet: &mut F,
    kinds: &Registry,
    factor: u64,
    strict: Option<u64>,
    onlooker: &mut O,
) -> PaceRan
    requires wellformed { IsWellformed scenario }
    requires ranked { AreRanksOf scenario ranks }
    requires prepared { IsPrepared scenario (map name_of (rows_in kinds.now)) }
    requires least { 1 ≤ factor }
    requires most { factor ≤ most_milliseconds }
    requires allowed { IfSome strict (λ ms. ms ≤ most_milliseconds) }
    ensures count { F.Fleet.faults fleet.old ≤ F.Fleet.faults fleet.new }
    ensures ran { (entries : List LogEntry)
        × Adds entries (F.Fleet.log fleet.old) (F.Fleet.log fleet.new)
        × (IsSome (F.Fleet.log fleet.new) → IsRising entries)
        × PacesAs (attempt (F.Fleet.started fleet.old) scenario ranks (rows_in kinds.now) entries)
        factor strict result.plan result.journal result.moments
        (F.Fleet.faults fleet.old) (F.Fleet.faults fleet.new) result.end
        × StartsLinks scenario (F.Fleet.started fleet.old) (F.Fleet.started fleet.new)
        (EndsAtStart result.plan entries result.end) }
    ensures closed { AreNumbered (F.Fleet.started fleet.old) (F.Fleet.open_links fleet.old)
        → F.Fleet.open_links fleet.new ≡ F.Fleet.open_links fleet.old }
    ensures shown { IsShownIn O.looks true result.plan result.journal onlooker.old onlooker.new }
{
    match Crew::begin(rt, alloc, scenario, ranks, fleet, kinds) {
        Ok((crew, plan)) => pace_plan(
            rt, alloc, plan, crew, fleet, kinds, factor, strict, onlooker,
        ),
        Err(halt) => unpaced(alloc, Outcome::from(halt)),
    }
}

// What a call comes to that makes no run.
fn unpaced(alloc: Global, outcome: Outcome) -> PaceRan
    ensures { result
        ≡ record { end = pace.Outcome outcome; plan = None; journal = None; moments = [] } }
{
    PaceRan {
        end: PaceEnd::Outcome(outcome),
        plan: None,
        journal: None,
        moments: List::new(alloc),
    }
}

// Stops a crew for which there is no run.
fn stop_early<F: Paced>(alloc: Global, crew: Crew, fleet: &mut F, outcome: Outcome) -> PaceRan
    requires open { AreOpen crew.channels (F.Fleet.open_links fleet.old) }
    ensures count { F.Fleet.faults fleet.old ≤ F.Fleet.faults fleet.new }
    ensures stopped { (entries : List LogEntry)
        × Adds entries (F.Fleet.log fleet.old) (F.Fleet.log fleet.new)
        × AreStopped entries
        (HasRisen (F.Fleet.faults fleet.old) (F.Fleet.faults fleet.new)) (crew_of crew)
        × IsRestless entries × AreOn (IsChannelLink crew.channels) entries }
    ensures same_count { F.Fleet.started fleet.new ≡ F.Fleet.started fleet.old }
    ensures closed { F.Fleet.open_links fleet.new
        ≡ without_all (links_in crew.places) (F.Fleet.open_links fleet.old) }
    ensures ran { result
        ≡ record { end = pace.Outcome outcome; plan = None; journal = None; moments = [] } }
{
    crew.stop(fleet);
    unpaced(alloc, outcome)
}

// Looks at the clock for the first time, and runs a plan over the crew that the handshake left.
fn pace_plan<F: Paced, R: Wait, O: Onlooker>(
    rt: &R,
    alloc: Global,
    plan: Plan,
    crew: Crew,
    fleet: &mut F,
    kinds: &Registry,
    factor: u64,
    strict: Option<u64>,
    onlooker: &mut O,
) -> PaceRan
    requires most { factor ≤ most_milliseconds }
    requires started { (A : Attempt) × (A.rows ≡ rows_in kinds.now) × IsStarted A crew plan }
    requires open { AreOpen crew.channels (F.Fleet.open_links fleet.old) }
    ensures count { F.Fleet.faults fleet.old ≤ F.Fleet.faults fleet.new }
    ensures ran { (entries : List LogEntry)
        × AddsRising entries (F.Fleet.log fleet.old) (F.Fleet.log fleet.new)
        × PlanPacesAs plan crew factor strict entries (F.Fleet.faults fleet.old)
        (F.Fleet.faults fleet.new) result.plan result.journal result.moments result.end }
    ensures same_count { F.Fleet.started fleet.new ≡ F.Fleet.started fleet.old }
    ensures closed { F.Fleet.open_links fleet.new
        ≡ without_all (links_in crew.places) (F.Fleet.open_links fleet.old) }
    ensures shown { IsShownIn O.looks true result.plan result.journal onlooker.old onlooker.new }
{
    match fleet.now() {
        Now::At(origin) => pace_from(
            rt, alloc, plan, crew, fleet, kinds, origin, factor, strict, onlooker,
        ),
        Now::Failed => stop_early(alloc, crew, fleet, Outcome::Fleet),
    }
}

// Runs a plan whose Steps wait from this origin on.
fn pace_from<F: Paced, R: Wait, O: Onlooker>(
    rt: &R,
    alloc: Global,
    plan: Plan,
    crew: Crew,
    fleet: &mut F,
    kinds: &Registry,
    origin: u64,
    factor: u64,
    strict: Option<u64>,
    onlooker: &mut O,
) -> PaceRan
    requires first { origin ≤ last_moment }
    requires most { factor ≤ most_milliseconds }
    requires started { (A : Attempt) × (A.rows ≡ rows_in kinds.now) × IsStarted A crew plan }
    requires open { AreOpen crew.channels (F.Fleet.open_links fleet.old) }
    ensures count { F.Fleet.faults fleet.old ≤ F.Fleet.faults fleet.new }
    ensures ran { (entries : List LogEntry)
        × AddsRising entries (F.Fleet.log fleet.old) (F.Fleet.log fleet.new)
        × PlanPacesAs plan crew factor strict (Told origin ∷ entries) (F.Fleet.faults fleet.old)
        (F.Fleet.faults fleet.new) result.plan result.journal result.moments result.end }
    ensures same_count { F.Fleet.started fleet.new ≡ F.Fleet.started fleet.old }
    ensures closed { F.Fleet.open_links fleet.new
        ≡ without_all (links_in crew.places) (F.Fleet.open_links fleet.old) }
    ensures shown { IsShownIn O.looks true result.plan result.journal onlooker.old onlooker.new }
{
    match make(alloc, plan, origin, factor, strict) {
        Ok((core, waiting)) => go_on(rt, core, waiting, crew, fleet, kinds, onlooker),
        Err(_) => stop_early(alloc, crew, fleet, Outcome::Mem),
    }
}

// A core for a plan, and nothing that waits.
fn make(
    alloc: Global,
    plan: Plan,
    origin: u64,
    factor: u64,
    strict: Option<u64>,
) -> Result<(Core, Waiting), Mem>
    requires valid { IsValidPlan plan }
    requires first { origin ≤ last_moment }
    requires most { factor ≤ most_milliseconds }
    ensures { IfOk result (λ p. (p.0 ≡ record { plan = plan; entries = []; ended = None })
        × (p.1 ≡ record {
          holds = replicate (sim_count plan) [];
          moments = [];
          tempo = record { origin = origin; factor = factor };
          strict = strict;
        })) }
{
    let sims = plan.sims.len() as u32;
    let waiting = Waiting::new(alloc, sims, origin, factor, strict)?;
    let core = Core::new(alloc, plan)?;
    Ok((core, waiting))
}

// Goes on until the first end, and stops the crew.
fn go_on<F: Paced, R: Wait, O: Onlooker>(
    rt: &R,
    core: Core,
    waiting: Waiting,
    crew: Crew,
    fleet: &mut F,
    kinds: &Registry,
    onlooker: &mut O,
) -> PaceRan
    requires going { core.ended ≡ None }
    requires unhalted { crew.halt ≡ None }
    requires known { AreOf (rows_in kinds.now) (within_of crew) }
    requires underway { (S : Setting) × (log : List LogEntry) × GoesOn S core log crew waiting
        × AreLinksOpen S (F.Fleet.open_links fleet.old) }
    ensures count { F.Fleet.faults fleet.old ≤ F.Fleet.faults fleet.new }
    ensures ran { (entries : List LogEntry)
        × AddsRising entries (F.Fleet.log fleet.old) (F.Fleet.log fleet.new)
        × GoesOnAs core crew waiting entries (F.Fleet.faults fleet.old)
        (F.Fleet.faults fleet.new) result.plan result.journal result.moments result.end }
    ensures same_count { F.Fleet.started fleet.new ≡ F.Fleet.started fleet.old }
    ensures closed { F.Fleet.open_links fleet.new
        ≡ without_all (links_in crew.places) (F.Fleet.open_links fleet.old) }
    ensures shown { core.entries ≡ []
        → IsShownIn O.looks true result.plan result.journal onlooker.old onlooker.new }
{
    let mut core = core;
    let mut waiting = waiting;
    let mut crew = crew;
    let end = drive(
        rt,
        &mut core,
        &mut crew,
        &mut waiting,
        fleet,
        kinds,
        onlooker,
    );
    crew.stop(fleet);
    let (plan, journal) = core.into_parts();
    PaceRan {
        end,
        plan: Some(plan),
        journal: Some(journal),
        moments: waiting.into_moments(),
    }
}
