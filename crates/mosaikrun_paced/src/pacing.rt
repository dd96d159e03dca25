//! From the bytes of a scenario's file to the text and the record of its paced run.
ghost use Rattle.std.specs.Prelude.{◌≡◌, ◌≤◌, List, IfOk, IfErr, IfSome, IsSome, Ok, Err, map, option_map, true};
ghost use Rattle.mk_outside.specs.declared.fleet.LogEntry.{LogEntry};
ghost use Rattle.mk_outside.specs.Logs.{Adds};
ghost use Rattle.mk_launch.specs.Starts.{AreNumbered};
ghost use Rattle.mk_local.specs.Kinds.{name_of};
ghost use Rattle.mk_local.specs.Registries.{rows_in};
ghost use Rattle.mk_pace_laws.specs.Clocks.{IsRising};
ghost use Rattle.mk_scenario.specs.Wellformed.{IsWellformed};
ghost use Rattle.mosaikrun_check.specs.Runnable.{IsRunnable};
ghost use Rattle.mosaikrun_run.specs.Shown.{HasShown};
ghost use Rattle.mosaikrun_run.specs.Outcomes.{HoldsOver};
ghost use Rattle.mosaikrun_sayings.specs.Sayings.{ids_of};
ghost use Rattle.mosaikrun_paced.specs.Outcomes.{IsPacedOutcome, IsPacedScenario};
ghost use Rattle.mk_base.specs.Limits.{most_milliseconds};

use crate::sayings::{saying_at, unpaced};
use mk_local::Registry;
use mk_onlooker::Onlooker;
use mk_outside::Paced;
use mk_pace::{PaceRan, paced};
use mk_scenario::Scenario;
use mosaikrun_check::scenario_of;
use mosaikrun_run::{Accepted, Told, accept};
use std::alloc::Global;
use std::sync::Wait;

/// Reads a scenario file's bytes, and runs the scenario over a fleet with a clock, its simulators within the program
/// being of these kinds: with `factor` milliseconds to a unit of time, 1 to 86,400,000, and no Step being sent more
/// than `strict` milliseconds late, at most 86,400,000, where that is given. Answers its report, or why there is none,
/// with its record, where one is wanted and it has a journal. It may wait for others. Every link that it starts is
/// closed at the end.
pub fn paced_ran<F: Paced, R: Wait, O: Onlooker>(
    rt: &R,
    alloc: Global,
    kinds: &Registry,
    bytes: &[u8],
    fleet: &mut F,
    factor: u64,
    strict: Option<u64>,
    is_recorded: bool,
    onlooker: &mut O,
) -> Told
    requires least { 1 ≤ factor }
    requires most { factor ≤ most_milliseconds }
    requires allowed { IfSome strict (λ ms. ms ≤ most_milliseconds) }
    ensures count { F.faults fleet.old ≤ F.faults fleet.new }
    ensures closed { AreNumbered (F.started fleet.old) (F.open_links fleet.old)
        → F.open_links fleet.new ≡ F.open_links fleet.old }
    ensures rising { (entries : List LogEntry) × Adds entries (F.log fleet.old) (F.log fleet.new)
        × (IsSome (F.log fleet.new) → IsRising entries) }
    ensures text { IfOk result.text (λ text. HoldsOver F.log F.started F.faults (rows_in kinds.now)
        fleet.old fleet.new (λ O. IsPacedOutcome O factor strict is_recorded bytes.now
        (Ok text.items) (option_map (λ r. r.items) result.record_text))) }
    ensures none { IfErr result.text (λ e. HoldsOver F.log F.started F.faults (rows_in kinds.now)
        fleet.old fleet.new (λ O. IsPacedOutcome O factor strict is_recorded bytes.now (Err e)
        (option_map (λ r. r.items) result.record_text))) }
    ensures shown { HasShown O.looks true (option_map (λ r. r.items) result.record_text)
        onlooker.old onlooker.new }
{
    match scenario_of(alloc, bytes) {
        Ok(scenario) => {
            play(
                rt,
                alloc,
                kinds,
                scenario,
                fleet,
                factor,
                strict,
                is_recorded,
                onlooker,
            )
        }
        Err(ending) => Told::unrecorded(ending),
    }
}

// Runs a scenario, if it can be run.
fn play<F: Paced, R: Wait, O: Onlooker>(
    rt: &R,
    alloc: Global,
    kinds: &Registry,
    scenario: Scenario,
    fleet: &mut F,
    factor: u64,
    strict: Option<u64>,
    is_recorded: bool,
    onlooker: &mut O,
) -> Told
    requires wellformed { IsWellformed scenario }
    requires least { 1 ≤ factor }
    requires most { factor ≤ most_milliseconds }
    requires allowed { IfSome strict (λ ms. ms ≤ most_milliseconds) }
    ensures count { F.faults fleet.old ≤ F.faults fleet.new }
    ensures closed { AreNumbered (F.started fleet.old) (F.open_links fleet.old)
        → F.open_links fleet.new ≡ F.open_links fleet.old }
    ensures rising { (entries : List LogEntry) × Adds entries (F.log fleet.old) (F.log fleet.new)
        × (IsSome (F.log fleet.new) → IsRising entries) }
    ensures text { IfOk result.text (λ text. HoldsOver F.log F.started F.faults (rows_in kinds.now)
        fleet.old fleet.new (λ O. IsPacedScenario O factor strict is_recorded scenario
        (Ok text.items) (option_map (λ r. r.items) result.record_text))) }
    ensures none { IfErr result.text (λ e. HoldsOver F.log F.started F.faults (rows_in kinds.now)
        fleet.old fleet.new (λ O. IsPacedScenario O factor strict is_recorded scenario (Err e)
        (option_map (λ r. r.items) result.record_text))) }
    ensures shown { HasShown O.looks true (option_map (λ r. r.items) result.record_text)
        onlooker.old onlooker.new }
{
    match accept(alloc, kinds, &scenario) {
        Ok(accepted) => pace(
            rt,
            alloc,
            kinds,
            scenario,
            accepted,
            fleet,
            factor,
            strict,
            is_recorded,
            onlooker,
        ),
        Err(ending) => Told::unrecorded(ending),
    }
}

// Runs a scenario by the clock, and says how it ended.
fn pace<F: Paced, R: Wait, O: Onlooker>(
    rt: &R,
    alloc: Global,
    kinds: &Registry,
    scenario: Scenario,
    accepted: Accepted,
    fleet: &mut F,
    factor: u64,
    strict: Option<u64>,
    is_recorded: bool,
    onlooker: &mut O,
) -> Told
    requires wellformed { IsWellformed scenario }
    requires runnable { IsRunnable (map name_of (rows_in kinds.now)) scenario accepted.ranks }
    requires ids { accepted.ids ≡ ids_of scenario }
    requires least { 1 ≤ factor }
    requires most { factor ≤ most_milliseconds }
    requires allowed { IfSome strict (λ ms. ms ≤ most_milliseconds) }
    ensures count { F.faults fleet.old ≤ F.faults fleet.new }
    ensures closed { AreNumbered (F.started fleet.old) (F.open_links fleet.old)
        → F.open_links fleet.new ≡ F.open_links fleet.old }
    ensures rising { (entries : List LogEntry) × Adds entries (F.log fleet.old) (F.log fleet.new)
        × (IsSome (F.log fleet.new) → IsRising entries) }
    ensures text { IfOk result.text (λ text. HoldsOver F.log F.started F.faults (rows_in kinds.now)
        fleet.old fleet.new (λ O. IsPacedScenario O factor strict is_recorded scenario
        (Ok text.items) (option_map (λ r. r.items) result.record_text))) }
    ensures none { IfErr result.text (λ e. HoldsOver F.log F.started F.faults (rows_in kinds.now)
        fleet.old fleet.new (λ O. IsPacedScenario O factor strict is_recorded scenario (Err e)
        (option_map (λ r. r.items) result.record_text))) }
    ensures shown { HasShown O.looks true (option_map (λ r. r.items) result.record_text)
        onlooker.old onlooker.new }
{
    let Accepted { ranks, ids } = accepted;
    let PaceRan {
        end,
        plan,
        journal,
        moments: _,
    } = paced(
        rt, alloc, scenario, ranks, fleet, kinds, factor, strict, onlooker,
    );
    match (plan, journal) {
        (Some(plan), Some(journal)) => {
            let text = saying_at(alloc, &ids, end, &plan, &journal);
            Told::recorded(alloc, text, &plan, &journal, is_recorded)
        }
        (None, None) => Told::unrecorded(unpaced(alloc, &ids, end)),
        (Some(_), None) | (None, Some(_)) => unreachable!(),
    }
}
