//! From the bytes of a scenario's file and of a record to the text and the record of the run that goes on.
ghost use Rattle.std.specs.Prelude.{◌≡◌, ◌≤◌, ◌⊎◌, All, IfOk, IfErr, IfSome, Ok, Err, None, map, option_map, true, false};
ghost use Rattle.std.specs.List.{list_all};
ghost use Rattle.mk_launch.specs.Starts.{AreNumbered};
ghost use Rattle.mk_local.specs.Kinds.{name_of};
ghost use Rattle.mk_local.specs.Registries.{rows_in};
ghost use Rattle.mk_run_crew.specs.Wholly.{is_wholly_within};
ghost use Rattle.mk_record.specs.Seen.{came};
ghost use Rattle.mk_record.specs.Steps.{IsKnown};
ghost use Rattle.mk_record.specs.Writable.{is_writable};
ghost use Rattle.mk_scenario.specs.Scenarios.{scenario_of};
ghost use Rattle.mk_scenario.specs.Wellformed.{IsWellformed};
ghost use Rattle.mosaikrun_check.specs.Checks.{IsUnchecked};
ghost use Rattle.mosaikrun_check.specs.Runnable.{IsRunnable};
ghost use Rattle.mosaikrun_endings.specs.declared.ending.Ending.TheVariants as ends;
ghost use Rattle.mosaikrun_run.specs.Outcomes.{HoldsOver, IsReadAgain, IsSaid};
ghost use Rattle.mosaikrun_run.specs.Sayings.{record_of};
ghost use Rattle.mosaikrun_sayings.specs.Sayings.{ids_of};
ghost use Rattle.mosaikrun_resume.specs.Outcomes.{IsStudyOutcome, IsSavedOutcome};
ghost use Rattle.mosaikrun_resume.specs.Sayings.{resume_saying};
ghost use Rattle.mosaikrun_resume.specs.Shown.{HasShownOnward};

use crate::sayings::{refusal, saying_at};
use mk_base::{List, Text};
use mk_local::Registry;
use mk_onlooker::Onlooker;
use mk_outside::Fleet;
use mk_plan::{Journal, Plan};
use mk_record::Saved;
use mk_resume::{ResumeEnd, ResumeRan, resume};
use mk_scenario::Scenario;
use mosaikrun_check::scenario_of;
use mosaikrun_endings::Ending;
use mosaikrun_records::saved_of;
use mosaikrun_run::{Accepted, Told, accept};
use std::alloc::Global;
use std::sync::Wait;

/// A scenario that can be run, and the ranks and the ids of its simulators.
#[derive(Drop)]
pub struct Study {
    pub scenario: Scenario,
    pub ranks: List<u32>,
    pub ids: List<Text>,
}

/// The scenario of a file with these bytes, which can be run, its simulators within the program being of these kinds;
/// or why there is none, as `check` says it.
pub fn study_of(alloc: Global, kinds: &Registry, bytes: &[u8]) -> Result<Study, Ending>
    ensures read { IfOk result (λ study. scenario_of bytes.now ≡ Ok study.scenario) }
    ensures wellformed { IfOk result (λ study. IsWellformed study.scenario) }
    ensures runnable { IfOk result
        (λ study. IsRunnable (map name_of (rows_in kinds.now)) study.scenario study.ranks) }
    ensures ids { IfOk result (λ study. study.ids ≡ ids_of study.scenario) }
    ensures unchecked { IfErr result
        (λ e. IsUnchecked (map name_of (rows_in kinds.now)) bytes.now e) }
{
    let scenario = scenario_of(alloc, bytes)?;
    match accept(alloc, kinds, &scenario) {
        Ok(accepted) => Ok(with_ranks(scenario, accepted)),
        Err(ending) => Err(ending),
    }
}

// The scenario with its ranks and ids.
fn with_ranks(scenario: Scenario, accepted: Accepted) -> Study
    ensures scenario { result.scenario ≡ scenario }
    ensures ranks { result.ranks ≡ accepted.ranks }
    ensures ids { result.ids ≡ accepted.ids }
{
    let Accepted { ranks, ids } = accepted;
    Study {
        scenario,
        ranks,
        ids,
    }
}

/// Goes on with a run of the study from the record of these bytes, over a fleet, its simulators within the program
/// being of these kinds. Answers its report, or why there is none, the bytes being no record among that, with the
/// record of the whole run, where one is wanted and the old one was taken. It may wait for others. Every link that it
/// starts is closed at the end; where all simulators are within the program the fleet is as before. The onlooker is shown
/// the journal of the whole run, once the old record was taken.
pub fn resumed<F: Fleet, R: Wait, O: Onlooker>(
    rt: &R,
    alloc: Global,
    kinds: &Registry,
    study: Study,
    bytes: &[u8],
    fleet: &mut F,
    is_recorded: bool,
    onlooker: &mut O,
) -> Told
    requires wellformed { IsWellformed study.scenario }
    requires runnable { IsRunnable (map name_of (rows_in kinds.now)) study.scenario study.ranks }
    requires ids { study.ids ≡ ids_of study.scenario }
    ensures count { F.faults fleet.old ≤ F.faults fleet.new }
    ensures closed { AreNumbered (F.started fleet.old) (F.open_links fleet.old)
        → F.open_links fleet.new ≡ F.open_links fleet.old }
    ensures within { is_wholly_within study.scenario ≡ true → fleet.new ≡ fleet.old }
    ensures text { IfOk result.text (λ text. HoldsOver F.log F.started F.faults (rows_in kinds.now)
        fleet.old fleet.new (λ O. IsStudyOutcome O is_recorded study.scenario study.ranks bytes.now
        (Ok text.items) (option_map (λ r. r.items) result.record_text))) }
    ensures none { IfErr result.text (λ e. HoldsOver F.log F.started F.faults (rows_in kinds.now)
        fleet.old fleet.new (λ O. IsStudyOutcome O is_recorded study.scenario study.ranks bytes.now
        (Err e) (option_map (λ r. r.items) result.record_text))) }
    ensures shown { HasShownOnward O.looks (option_map (λ r. r.items) result.record_text)
        onlooker.old onlooker.new }
{
    match saved_of(alloc, bytes) {
        Ok(saved) => go_on(rt, alloc, kinds, study, saved, fleet, is_recorded, onlooker),
        Err(ending) => Told::unrecorded(ending),
    }
}

// Goes on with a run of the study from a record, and says how it ended.
fn go_on<F: Fleet, R: Wait, O: Onlooker>(
    rt: &R,
    alloc: Global,
    kinds: &Registry,
    study: Study,
    saved: Saved,
    fleet: &mut F,
    is_recorded: bool,
    onlooker: &mut O,
) -> Told
    requires wellformed { IsWellformed study.scenario }
    requires runnable { IsRunnable (map name_of (rows_in kinds.now)) study.scenario study.ranks }
    requires ids { study.ids ≡ ids_of study.scenario }
    requires known { All (IsKnown saved.plan) (map came saved.arrivals) }
    ensures count { F.faults fleet.old ≤ F.faults fleet.new }
    ensures closed { AreNumbered (F.started fleet.old) (F.open_links fleet.old)
        → F.open_links fleet.new ≡ F.open_links fleet.old }
    ensures within { is_wholly_within study.scenario ≡ true → fleet.new ≡ fleet.old }
    ensures text { IfOk result.text (λ text. HoldsOver F.log F.started F.faults (rows_in kinds.now)
        fleet.old fleet.new (λ O. IsSavedOutcome O is_recorded study.scenario study.ranks saved
        (Ok text.items) (option_map (λ r. r.items) result.record_text))) }
    ensures none { IfErr result.text (λ e. HoldsOver F.log F.started F.faults (rows_in kinds.now)
        fleet.old fleet.new (λ O. IsSavedOutcome O is_recorded study.scenario study.ranks saved
        (Err e) (option_map (λ r. r.items) result.record_text))) }
    ensures shown { HasShownOnward O.looks (option_map (λ r. r.items) result.record_text)
        onlooker.old onlooker.new }
{
    let Study {
        scenario,
        ranks,
        ids,
    } = study;
    let ResumeRan {
        end,
        taken,
        plan,
        journal,
    } = resume(rt, alloc, scenario, ranks, saved, fleet, kinds, onlooker);
    match (plan, journal) {
        (Some(plan), Some(journal)) => {
            tell(alloc, &ids, end, &plan, &journal, taken, is_recorded)
        }
        (None, None) => Told::unrecorded(refusal(alloc, &ids, end)),
        (Some(_), None) | (None, Some(_)) => unreachable!(),
    }
}

// What is said of a run with a plan and a journal, and the new record, where the old one was taken.
fn tell(
    alloc: Global,
    ids: &List<Text>,
    end: ResumeEnd,
    plan: &Plan,
    journal: &Journal,
    taken: bool,
    is_recorded: bool,
) -> Told
    requires { taken ≡ true → list_all is_writable journal.now.entries ≡ true }
    ensures text { IfOk result.text
        (λ text. IsSaid (resume_saying ids.now plan.now journal.now.entries end) (Ok text.items)) }
    ensures none { IfErr result.text
        (λ e. IsSaid (resume_saying ids.now plan.now journal.now.entries end) (Err e)) }
    ensures recorded { taken ≡ true → (option_map (λ r. r.items) result.record_text
        ≡ record_of is_recorded plan.now journal.now.entries)
        ⊎ ((result.record_text ≡ None) × (result.text ≡ Err ends.Mem)) }
    ensures again { IfSome result.record_text
        (λ r. IsReadAgain plan.now journal.now.entries r.items) }
    ensures unrecorded { taken ≡ false → result.record_text ≡ None }
{
    let text = saying_at(alloc, ids, end, plan, journal);
    if taken {
        Told::recorded(alloc, text, plan, journal, is_recorded)
    } else {
        Told {
            text,
            record_text: None,
        }
    }
}
