//! A run whose simulators are all within the program: over no fleet, and without waiting for anybody.
ghost use Rattle.std.specs.Prelude.{◌≡◌, ℕ, [], true, false, None, Err, map, IfErr, OnOk, drop, length};
ghost use Rattle.mk_scenario.specs.Wellformed.{IsWellformed};
ghost use Rattle.mk_launch.specs.Ready.{IsPrepared};
ghost use Rattle.mk_run_crew.specs.Attempts.{attempt};
ghost use Rattle.mk_local.specs.Kinds.{name_of};
ghost use Rattle.mk_local.specs.Registries.{rows_in};
ghost use Rattle.mk_plan.specs.Plans.{IsValidPlan};
ghost use Rattle.mk_setup.specs.Ranked.{AreRanksOf};
ghost use Rattle.mk_run_local.specs.Seen.{AreOf};
ghost use Rattle.mk_run_crew.specs.Seen.{crew_of, within_of};
ghost use Rattle.mk_run_crew.specs.Wholly.{is_wholly_within};
ghost use Rattle.mk_run.specs.Outcomes.{IsWithinOutcome};
ghost use Rattle.mk_run.specs.Ran.{RunsAs};
ghost use Rattle.mk_onlooker.specs.Showings.{IsShown, IsShownIn, IsShownOn};
ghost use Rattle.mk_run.specs.inner.Underway.{IsUnderway, Setting};
ghost use Rattle.mk_run.specs.inner.Turns.{GetsBatch, GoesOn, IsLinkedIfLong, IsLonger, IsStill, PlanRunsAs, TurnsAs, Waits};

use crate::driving::{ask_all, begin, take};
use crate::outcome::{Outcome, Ran};
use mk_base::List;
use mk_local::Registry;
use mk_onlooker::{Onlooker, show};
use mk_plan::Plan;
use mk_run_crew::Crew;
use mk_scenario::Scenario;
use mk_sched::Core;
use std::alloc::Global;

// Takes the oldest reply that is kept, and gives it to the core.
fn take_next(core: &mut Core, crew: &mut Crew, kinds: &Registry) -> Result<(), Outcome>
    requires going { core.old.ended ≡ None }
    requires known { AreOf (rows_in kinds.now) (within_of crew.old) }
    requires waits { Waits core.old }
    requires underway { (T : Setting) × GoesOn T core.old [] crew.old
        × (is_wholly_within T.scenario ≡ true) }
    ensures turned { TurnsAs result [] ⊥ core.old crew.old core.new crew.new }
    ensures grown { OnOk result (IsLonger core.old core.new) }
    ensures batch { GetsBatch core.old core.new }
    ensures long { IfErr result (IsLinkedIfLong crew.new) }
    ensures still { IsStill crew.old crew.new }
{
    match crew.take_kept() {
        Some((sim, message)) => take(core, crew, kinds, sim, message),
        None => unreachable!(),
    }
}

// Takes one reply, and asks whoever is ready then.
fn go_on_within(core: &mut Core, crew: &mut Crew, kinds: &Registry) -> Result<(), Outcome>
    requires going { core.old.ended ≡ None }
    requires known { AreOf (rows_in kinds.now) (within_of crew.old) }
    requires waits { Waits core.old }
    requires underway { (T : Setting) × GoesOn T core.old [] crew.old
        × (is_wholly_within T.scenario ≡ true) }
    ensures turned { TurnsAs result [] ⊥ core.old crew.old core.new crew.new }
    ensures grown { OnOk result (IsLonger core.old core.new) }
    ensures batch { GetsBatch core.old core.new }
    ensures waits { OnOk result (Waits core.new) }
    ensures long { IfErr result (IsLinkedIfLong crew.new) }
    ensures still { IsStill crew.old crew.new }
{
    take_next(core, crew, kinds)?;
    ask_all(core, crew, kinds)
}

// Takes one reply, asks whoever is ready then, and shows what the journal has got.
fn turn_within<O: Onlooker>(
    core: &mut Core,
    crew: &mut Crew,
    kinds: &Registry,
    onlooker: &mut O,
) -> Result<(), Outcome>
    requires going { core.old.ended ≡ None }
    requires known { AreOf (rows_in kinds.now) (within_of crew.old) }
    requires waits { Waits core.old }
    requires underway { (T : Setting) × GoesOn T core.old [] crew.old
        × (is_wholly_within T.scenario ≡ true) }
    ensures turned { TurnsAs result [] ⊥ core.old crew.old core.new crew.new }
    ensures grown { OnOk result (IsLonger core.old core.new) }
    ensures batch { GetsBatch core.old core.new }
    ensures shown { O.looks onlooker.old core.new.plan
        (drop (length core.old.entries) core.new.entries) false onlooker.new }
    ensures waits { OnOk result (Waits core.new) }
    ensures long { IfErr result (IsLinkedIfLong crew.new) }
    ensures still { IsStill crew.old crew.new }
{
    let shown = core.journal().entries.len();
    let result = go_on_within(core, crew, kinds);
    show(onlooker, core.plan(), core.journal(), shown, false);
    result
}

// Goes on until the first outcome, which comes at the plan's limit of entries at the latest.
fn drive_on_within<O: Onlooker>(
    core: &mut Core,
    crew: &mut Crew,
    kinds: &Registry,
    onlooker: &mut O,
) -> Outcome
    requires going { core.old.ended ≡ None }
    requires known { AreOf (rows_in kinds.now) (within_of crew.old) }
    requires waits { Waits core.old }
    requires underway { (T : Setting) × GoesOn T core.old [] crew.old
        × (is_wholly_within T.scenario ≡ true) }
    ensures ended { TurnsAs (Err result) [] ⊥ core.old crew.old core.new crew.new }
    ensures same_plan { core.new.plan ≡ core.old.plan }
    ensures shown { IsShownOn O.looks core.old.plan false core.old.entries core.new.entries
        onlooker.old onlooker.new }
    ensures long { IsLinkedIfLong crew.new result }
{
    'turns: loop {
        match turn_within(core, crew, kinds, onlooker) {
            Ok(()) => {}
            Err(outcome) => return outcome,
        }
    }
}

// Asks whoever is ready, and goes on until the first outcome.
fn drive_within<O: Onlooker>(
    core: &mut Core,
    crew: &mut Crew,
    kinds: &Registry,
    onlooker: &mut O,
) -> Outcome
    requires going { core.old.ended ≡ None }
    requires known { AreOf (rows_in kinds.now) (within_of crew.old) }
    requires underway { (T : Setting) × GoesOn T core.old [] crew.old
        × (is_wholly_within T.scenario ≡ true) }
    ensures ended { TurnsAs (Err result) [] ⊥ core.old crew.old core.new crew.new }
    ensures shown { IsShown O.looks core.new.plan false core.old.entries core.new.entries
        onlooker.old onlooker.new }
    ensures long { IsLinkedIfLong crew.new result }
{
    match begin(core, crew, kinds, onlooker, false) {
        Ok(()) => drive_on_within(core, crew, kinds, onlooker),
        Err(outcome) => outcome,
    }
}

// Runs a plan over the crew that the handshake left.
fn run_plan_within<O: Onlooker>(
    alloc: Global,
    plan: Plan,
    crew: Crew,
    kinds: &Registry,
    onlooker: &mut O,
) -> Ran
    requires valid { IsValidPlan plan }
    requires known { AreOf (rows_in kinds.now) (within_of crew) }
    requires underway { (T : Setting) × IsUnderway T plan [] [] (crew_of crew) crew.sims
        × (is_wholly_within T.scenario ≡ true) }
    ensures ran { (faults : ℕ)
        → PlanRunsAs plan crew [] faults faults result.plan result.journal result.outcome }
    ensures shown { IsShownIn O.looks false result.plan result.journal onlooker.old onlooker.new }
    ensures within { IsWithinOutcome result.outcome }
{
    let mut crew = crew;
    match Core::new(alloc, plan) {
        Ok(core) => {
            let mut core = core;
            let outcome = drive_within(&mut core, &mut crew, kinds, onlooker);
            let (plan, journal) = core.into_parts();
            Ran {
                outcome,
                plan: Some(plan),
                journal: Some(journal),
            }
        }
        Err(_) => Ran {
            outcome: Outcome::Mem,
            plan: None,
            journal: None,
        },
    }
}

/// Runs a prepared scenario with its ranks whose simulators all run within the program, and are of these kinds. It does
/// what `run` does, without a fleet: it waits for nobody and so returns, by an outcome of `Done`, `Setup`, `Core` or
/// `Mem`.
///
/// The plan and the journal are there wherever the handshake was made and there was memory for the run. The onlooker is
/// shown the whole journal, message by message, and the run pauses at none of its looks.
pub fn run_local<O: Onlooker>(
    alloc: Global,
    scenario: Scenario,
    ranks: List<u32>,
    kinds: &Registry,
    onlooker: &mut O,
) -> Ran
    requires wellformed { IsWellformed scenario }
    requires ranked { AreRanksOf scenario ranks }
    requires prepared { IsPrepared scenario (map name_of (rows_in kinds.now)) }
    requires wholly { is_wholly_within scenario ≡ true }
    ensures ran { (started faults : ℕ)
        → RunsAs (attempt started scenario ranks (rows_in kinds.now) []) result.plan result.journal
        faults faults result.outcome }
    ensures shown { IsShownIn O.looks false result.plan result.journal onlooker.old onlooker.new }
    ensures within { IsWithinOutcome result.outcome }
{
    match Crew::begin_within(alloc, scenario, ranks, kinds) {
        Ok((crew, plan)) => run_plan_within(alloc, plan, crew, kinds, onlooker),
        Err(halt) => Ran {
            outcome: Outcome::from(halt),
            plan: None,
            journal: None,
        },
    }
}
