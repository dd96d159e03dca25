//! From a scenario, or a file's bytes, to the text and the record of its run.
ghost use Rattle.std.specs.Prelude.{◌≡◌, ◌≤◌, ◌⊎◌, IfOk, IfErr, IfSome, Some, None, Ok, Err, map, option_map, true, not};
ghost use Rattle.std.specs.List.{list_all};
ghost use Rattle.mk_scenario.specs.declared.parts.Scenario.{Scenario};
ghost use Rattle.mk_scenario.specs.Scenarios.{scenario_of};
ghost use Rattle.mk_scenario.specs.Wellformed.{IsWellformed};
ghost use Rattle.mk_run_crew.specs.Wholly.{is_wholly_within};
ghost use Rattle.mk_launch.specs.Starts.{AreNumbered};
ghost use Rattle.mk_local.specs.Kinds.{name_of};
ghost use Rattle.mk_local.specs.Registries.{rows_in};
ghost use Rattle.mosaikrun_check.specs.Runnable.{IsRunnable, IsUnrunnable};
ghost use Rattle.mk_record.specs.Writable.{is_writable};
ghost use Rattle.mk_run_crew.specs.declared.halt.Halt.{Halt};
ghost use Rattle.mk_run.specs.Outcomes.{outcome_of};
ghost use Rattle.mosaikrun_sayings.specs.Sayings.{ids_of};
ghost use Rattle.mk_scenario_keys.specs.declared.fault.ScenarioFault.{ScenarioFault};
ghost use Rattle.mosaikrun_run.specs.Shown.{HasShown};
ghost use Rattle.mosaikrun_run.specs.Sayings.{IsHalt, halt_ending, record_of, saying_of};
ghost use Rattle.mosaikrun_run.specs.Outcomes.{HoldsOver, IsReadAgain, IsScenarioOutcome, IsRunOutcome, IsSaid};
ghost use Rattle.mosaikrun_endings.specs.declared.ending.Ending.TheVariants as ends;

use crate::sayings::{Form, halt_ending, saying};
use mk_base::{List, Mem, Text};
use mk_local::Registry;
use mk_onlooker::Onlooker;
use mk_outside::Fleet;
use mk_plan::{Journal, Plan};
use mk_record::write_record;
use mk_run::{Outcome, Ran, run};
use mk_scenario::Scenario;
use mosaikrun_check::{ranked, scenario_of};
use mosaikrun_endings::Ending;
use mosaikrun_sayings::ids_of;
use std::alloc::Global;
use std::sync::Wait;

/// What a run comes to: its text, or why there is none; and the record, where one is wanted, the run has a journal
/// that is to be saved, and there was memory for it.
#[derive(Drop)]
pub struct Told {
    pub text: Result<Vec<u8>, Ending>,
    pub record_text: Option<Vec<u8>>,
}

impl Told {
    /// A run that has no text, since it ended so, and nothing to record.
    pub fn unrecorded(ending: Ending) -> Told
        ensures text { result.text ≡ Err ending }
        ensures no_record { result.record_text ≡ None }
    {
        Told {
            text: Err(ending),
            record_text: None,
        }
    }

    /// A run with a plan and a journal, of which this is said, and its record where one is wanted; or memory is wanting
    /// for that.
    pub fn recorded(
        alloc: Global,
        text: Result<Vec<u8>, Ending>,
        plan: &Plan,
        journal: &Journal,
        is_recorded: bool,
    ) -> Told
        requires { list_all is_writable journal.now.entries ≡ true }
        ensures text { (result.text ≡ text) ⊎ (result.text ≡ Err ends.Mem) }
        ensures recorded { (option_map (λ r. r.items) result.record_text
            ≡ record_of is_recorded plan.now journal.now.entries)
            ⊎ ((result.record_text ≡ None) × (result.text ≡ Err ends.Mem)) }
        ensures again { IfSome result.record_text
            (λ r. IsReadAgain plan.now journal.now.entries r.items) }
    {
        match record_of(alloc, plan, journal, is_recorded) {
            Ok(record_text) => Told { text, record_text },
            Err(_) => {
                drop(text);
                Told::unrecorded(Ending::Mem)
            }
        }
    }
}

/// Reads a scenario file's bytes, and runs the scenario over a fleet, its simulators within the program being of these
/// kinds. Answers its report, or why there is none, with its record, where one is wanted and it has a journal. It may
/// wait for others. Every link that it starts is closed at the end; where all simulators are within the program the
/// fleet is as before. The onlooker is shown the journal of the run, if it has one, as `mk_run::run` tells.
pub fn ran<F: Fleet, R: Wait, O: Onlooker>(
    rt: &R,
    alloc: Global,
    kinds: &Registry,
    bytes: &[u8],
    fleet: &mut F,
    is_recorded: bool,
    onlooker: &mut O,
) -> Told
    ensures count { F.faults fleet.old ≤ F.faults fleet.new }
    ensures closed { AreNumbered (F.started fleet.old) (F.open_links fleet.old)
        → F.open_links fleet.new ≡ F.open_links fleet.old }
    ensures within { (S : Scenario) → scenario_of bytes.now ≡ Ok S → is_wholly_within S ≡ true
        → fleet.new ≡ fleet.old }
    ensures text { IfOk result.text (λ text. HoldsOver F.log F.started F.faults (rows_in kinds.now)
        fleet.old fleet.new (λ O. IsRunOutcome O is_recorded bytes.now (Ok text.items)
        (option_map (λ r. r.items) result.record_text))) }
    ensures none { IfErr result.text (λ e. HoldsOver F.log F.started F.faults (rows_in kinds.now)
        fleet.old fleet.new (λ O. IsRunOutcome O is_recorded bytes.now (Err e)
        (option_map (λ r. r.items) result.record_text))) }
    ensures shown { (S : Scenario) → scenario_of bytes.now ≡ Ok S → HasShown O.looks
        (not (is_wholly_within S)) (option_map (λ r. r.items) result.record_text) onlooker.old
        onlooker.new }
    ensures unread { (f : ScenarioFault) → scenario_of bytes.now ≡ Err f
        → onlooker.new ≡ onlooker.old }
{
    match scenario_of(alloc, bytes) {
        Ok(scenario) => played(
            rt,
            alloc,
            kinds,
            scenario,
            fleet,
            Form::Report,
            is_recorded,
            onlooker,
        ),
        Err(ending) => Told::unrecorded(ending),
    }
}

/// Runs a scenario over a fleet, its simulators within the program being of these kinds. Answers its text in this
/// form, or why there is none, with its record, where one is wanted and it has a journal. It may wait for others.
/// Every link that it starts is closed at the end; where all simulators are within the program the fleet is as before.
/// The onlooker is shown the journal of the run, if it has one.
pub fn played<F: Fleet, R: Wait, O: Onlooker>(
    rt: &R,
    alloc: Global,
    kinds: &Registry,
    scenario: Scenario,
    fleet: &mut F,
    form: Form,
    is_recorded: bool,
    onlooker: &mut O,
) -> Told
    requires wellformed { IsWellformed scenario }
    ensures count { F.faults fleet.old ≤ F.faults fleet.new }
    ensures closed { AreNumbered (F.started fleet.old) (F.open_links fleet.old)
        → F.open_links fleet.new ≡ F.open_links fleet.old }
    ensures within { is_wholly_within scenario ≡ true → fleet.new ≡ fleet.old }
    ensures text { IfOk result.text (λ text. HoldsOver F.log F.started F.faults (rows_in kinds.now)
        fleet.old fleet.new (λ O. IsScenarioOutcome O form is_recorded scenario (Ok text.items)
        (option_map (λ r. r.items) result.record_text))) }
    ensures none { IfErr result.text (λ e. HoldsOver F.log F.started F.faults (rows_in kinds.now)
        fleet.old fleet.new (λ O. IsScenarioOutcome O form is_recorded scenario (Err e)
        (option_map (λ r. r.items) result.record_text))) }
    ensures shown { HasShown O.looks (not (is_wholly_within scenario))
        (option_map (λ r. r.items) result.record_text) onlooker.old onlooker.new }
{
    match accept(alloc, kinds, &scenario) {
        Ok(accepted) => play(
            rt,
            alloc,
            kinds,
            scenario,
            accepted,
            fleet,
            form,
            is_recorded,
            onlooker,
        ),
        Err(ending) => Told::unrecorded(ending),
    }
}

/// The ranks of a scenario that can be run, and the ids of its simulators.
#[derive(Drop)]
pub struct Accepted {
    pub ranks: List<u32>,
    pub ids: List<Text>,
}

/// The ranks and ids of a scenario's simulators, those within the program being of these kinds; or why it can't be
/// run, or that memory is wanting.
pub fn accept(alloc: Global, kinds: &Registry, scenario: &Scenario) -> Result<Accepted, Ending>
    requires { IsWellformed scenario.now }
    ensures runnable { IfOk result
        (λ a. IsRunnable (map name_of (rows_in kinds.now)) scenario.now a.ranks) }
    ensures ids { IfOk result (λ a. a.ids ≡ ids_of scenario.now) }
    ensures unready { IfErr result
        (λ e. IsUnrunnable (map name_of (rows_in kinds.now)) scenario.now e) }
{
    let names = kinds.names(alloc)?;
    let ranks = ranked(alloc, &names, scenario)?;
    let ids = ids_of(alloc, scenario)?;
    Ok(Accepted { ranks, ids })
}

// Runs a scenario, and says how it ended.
fn play<F: Fleet, R: Wait, O: Onlooker>(
    rt: &R,
    alloc: Global,
    kinds: &Registry,
    scenario: Scenario,
    accepted: Accepted,
    fleet: &mut F,
    form: Form,
    is_recorded: bool,
    onlooker: &mut O,
) -> Told
    requires wellformed { IsWellformed scenario }
    requires runnable { IsRunnable (map name_of (rows_in kinds.now)) scenario accepted.ranks }
    requires ids { accepted.ids ≡ ids_of scenario }
    ensures count { F.faults fleet.old ≤ F.faults fleet.new }
    ensures closed { AreNumbered (F.started fleet.old) (F.open_links fleet.old)
        → F.open_links fleet.new ≡ F.open_links fleet.old }
    ensures within { is_wholly_within scenario ≡ true → fleet.new ≡ fleet.old }
    ensures text { IfOk result.text (λ text. HoldsOver F.log F.started F.faults (rows_in kinds.now)
        fleet.old fleet.new (λ O. IsScenarioOutcome O form is_recorded scenario (Ok text.items)
        (option_map (λ r. r.items) result.record_text))) }
    ensures none { IfErr result.text (λ e. HoldsOver F.log F.started F.faults (rows_in kinds.now)
        fleet.old fleet.new (λ O. IsScenarioOutcome O form is_recorded scenario (Err e)
        (option_map (λ r. r.items) result.record_text))) }
    ensures shown { HasShown O.looks (not (is_wholly_within scenario))
        (option_map (λ r. r.items) result.record_text) onlooker.old onlooker.new }
{
    let Accepted { ranks, ids } = accepted;
    let Ran {
        outcome,
        plan,
        journal,
    } = run(rt, alloc, scenario, ranks, fleet, kinds, onlooker);
    match (plan, journal) {
        (Some(plan), Some(journal)) => {
            tell(alloc, form, &ids, outcome, &plan, &journal, is_recorded)
        }
        (None, None) => Told::unrecorded(unrun(alloc, &ids, outcome)),
        (Some(_), None) | (None, Some(_)) => unreachable!(),
    }
}

/// What is said of a run that had no plan, or that memory is wanting.
pub fn unrun(alloc: Global, ids: &List<Text>, outcome: Outcome) -> Ending
    requires { IsHalt outcome }
    ensures { (h : Halt) → outcome ≡ outcome_of h
        → IsSaid (Err (halt_ending ids.now h)) (Err result) }
{
    match halt_ending(alloc, ids, outcome) {
        Ok(ending) => ending,
        Err(_) => Ending::Mem,
    }
}

// What is said of a run with a plan and a journal, and its record.
fn tell(
    alloc: Global,
    form: Form,
    ids: &List<Text>,
    outcome: Outcome,
    plan: &Plan,
    journal: &Journal,
    is_recorded: bool,
) -> Told
    requires { list_all is_writable journal.now.entries ≡ true }
    ensures text { IfOk result.text
        (λ text. IsSaid (saying_of form ids.now plan.now journal.now.entries outcome)
        (Ok text.items)) }
    ensures none { IfErr result.text
        (λ e. IsSaid (saying_of form ids.now plan.now journal.now.entries outcome) (Err e)) }
    ensures recorded { (option_map (λ r. r.items) result.record_text
        ≡ record_of is_recorded plan.now journal.now.entries)
        ⊎ ((result.record_text ≡ None) × (result.text ≡ Err ends.Mem)) }
    ensures again { IfSome result.record_text
        (λ r. IsReadAgain plan.now journal.now.entries r.items) }
{
    let text = saying(alloc, form, ids, outcome, plan, journal);
    Told::recorded(alloc, text, plan, journal, is_recorded)
}

// The record of the plan and the journal, where one is wanted.
fn record_of(
    alloc: Global,
    plan: &Plan,
    journal: &Journal,
    is_recorded: bool,
) -> Result<Option<Vec<u8>>, Mem>
    requires { list_all is_writable journal.now.entries ≡ true }
    ensures made { IfOk result (λ record_. option_map (λ r. r.items) record_
        ≡ record_of is_recorded plan.now journal.now.entries) }
    ensures again { IfOk result (λ record_. IfSome record_
        (λ r. IsReadAgain plan.now journal.now.entries r.items)) }
{
    if is_recorded {
        Ok(Some(write_record(alloc, plan, journal)?))
    } else {
        Ok(None)
    }
}
