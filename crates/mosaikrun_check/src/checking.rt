//! From a scenario file's bytes to the text that is printed of it, or why there is none.
ghost use Rattle.std.specs.Prelude.{◌≡◌, ℕ, ◌<◌, ◌^◌, ◌⊎◌, List, Result, Ok, Err, IfOk, IfErr, OnOk, length, map};
ghost use Rattle.mk_base.specs.declared.SimNo.{SimNo};
ghost use Rattle.mk_launch.specs.Ready.{IsPrepared};
ghost use Rattle.mk_scenario.specs.Ids.{id_of_sim};
ghost use Rattle.mk_scenario.specs.Scenarios.{scenario_of};
ghost use Rattle.mk_scenario.specs.Wellformed.{IsWellformed};
ghost use Rattle.mosaikrun_check.specs.Checks.{IsChecked, IsOutcome, IsUnchecked, IsUnread};
ghost use Rattle.mosaikrun_check.specs.Runnable.{IsRunnable, IsUnbegun, IsUnrunnable};
ghost use Rattle.mosaikrun_endings.specs.declared.ending.Ending.{Ending};
ghost use Rattle.mosaikrun_endings.specs.declared.ending.Ending.TheVariants as ends;
ghost use Rattle.mosaikrun_endings.specs.Endings.{outcome_status};

use crate::text::check_text;
use mk_base::{List, Mem, SimNo, Text};
use mk_connect::edges;
use mk_cycles::{CycleFault, ranks};
use mk_launch::{LaunchFault, Unready, prepare};
use mk_scenario::{Scenario, ScenarioFault, id_of_sim, read_scenario};
use mosaikrun_endings::Ending;
use std::alloc::Global;

/// What `check` prints of a scenario file with these bytes, the kinds within the program having these names: how many
/// simulators, groups and blocks it has, and the simulators' ids in rising rank. Else why it is no scenario, the cycle
/// that leaves no ranks, the first simulator that can't be begun, or that memory is wanting.
pub fn checked(alloc: Global, kinds: &List<Text>, bytes: &[u8]) -> Result<Vec<u8>, Ending>
    ensures checked { IfOk result (λ text. IsChecked kinds.now bytes.now text.items) }
    ensures unchecked { IfErr result (λ ending. IsUnchecked kinds.now bytes.now ending) }
{
    let scenario = scenario_of(alloc, bytes)?;
    match ranked(alloc, kinds, &scenario) {
        Ok(ranks) => Ok(check_text(alloc, &scenario, ranks.as_slice())?),
        Err(ending) => Err(ending),
    }
}

/// The scenario of a file with these bytes, which is well-formed; or why they are none, or that memory is wanting.
pub fn scenario_of(alloc: Global, bytes: &[u8]) -> Result<Scenario, Ending>
    ensures read { IfOk result (λ s. scenario_of bytes.now ≡ Ok s) }
    ensures wellformed { IfOk result (λ s. IsWellformed s) }
    ensures unread { IfErr result (λ ending. IsUnread bytes.now ending) }
{
    match read_scenario(alloc, bytes) {
        Ok(scenario) => Ok(scenario),
        Err(ScenarioFault::Mem) => Err(Ending::Mem),
        Err(fault) => Err(Ending::Scenario(fault)),
    }
}

/// The ranks of a scenario's simulators, each of which can be begun, the kinds within the program having these names.
/// Else the cycle that leaves no ranks, the first simulator that can't be begun, or that memory is wanting.
pub fn ranked(alloc: Global, kinds: &List<Text>, scenario: &Scenario) -> Result<List<u32>, Ending>
    requires { IsWellformed scenario.now }
    ensures runnable { IfOk result (λ ranks. IsRunnable kinds.now scenario.now ranks) }
    ensures unrunnable { IfErr result (λ ending. IsUnrunnable kinds.now scenario.now ending) }
{
    let edges = edges(alloc, scenario)?;
    match ranks(alloc, scenario.sims.len() as u32, edges.as_slice()) {
        Ok(ranks) => match prepared(alloc, scenario, kinds) {
            Ok(()) => Ok(ranks),
            Err(ending) => Err(ending),
        },
        Err(CycleFault::Cycle(walk)) => Err(Ending::Cycle {
            sims: ids_of(alloc, scenario, &walk)?,
        }),
        Err(CycleFault::Mem) => Err(Ending::Mem),
    }
}

// Whether each simulator can be begun.
fn prepared(alloc: Global, scenario: &Scenario, kinds: &List<Text>) -> Result<(), Ending>
    requires { length scenario.now.sims < 2 ^ 32 }
    ensures prepared { OnOk result (IsPrepared scenario.now kinds.now) }
    ensures unprepared { IfErr result (λ ending. (ending ≡ ends.Mem)
        ⊎ IsUnbegun scenario.now kinds.now ending) }
{
    match prepare(alloc, scenario, kinds) {
        Ok(()) => Ok(()),
        Err(
            Unready {
                fault: LaunchFault::Mem,
                ..
            },
        ) => Err(Ending::Mem),
        Err(unready) => Err(Ending::Launch {
            sim: Text::of(
                alloc,
                id_of_sim(scenario.sims.as_slice(), unready.sim.0 as usize),
            )?,
            fault: unready.fault,
        }),
    }
}

// The ids of these simulators, in this order.
fn ids_of(alloc: Global, scenario: &Scenario, walk: &List<SimNo>) -> Result<List<Text>, Mem>
    ensures { IfOk result (λ ids. ids
        ≡ map (λ (s : SimNo). id_of_sim scenario.now.sims s.0) walk.now) }
{
    let mut ids = List::new(alloc);
    for sim in walk.as_slice() {
        let id = id_of_sim(scenario.sims.as_slice(), sim.0 as usize);
        ids.push(Text::of(alloc, id)?)?;
    }
    Ok(ids)
}

/// One file has one status: two texts or endings that `check` may answer of the same bytes, with the same kinds, have
/// the same, want of memory aside.
pub fn scenario_has_one_status()
    ensures { (kinds : List (List ℕ)) → (bytes : List ℕ) → (o : Result (List ℕ) Ending)
        → (p : Result (List ℕ) Ending)
        → IsOutcome kinds bytes o → IsOutcome kinds bytes p → (o ≡ Err ends.Mem → ⊥)
        → (p ≡ Err ends.Mem → ⊥) → outcome_status o ≡ outcome_status p }
{}
