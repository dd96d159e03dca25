//! A run of simulators within the program alone.
ghost use Rattle.std.specs.Prelude.{IfSome, map};
ghost use Rattle.mk_scenario.specs.Wellformed.{IsWellformed};
ghost use Rattle.mk_local.specs.Kinds.{name_of};
ghost use Rattle.mk_local.specs.Registries.{rows_in};
ghost use Rattle.mosaikrun_check.specs.Runnable.{IsRunnable};

use mk_base::List;
use mk_local::Registry;
use mk_onlooker::Nobody;
use mk_plan::Journal;
use mk_run::{Outcome, Ran, run_local};
use mk_run_crew::{is_wholly_within, within_handshakes_are_faultless};
use mk_scenario::Scenario;
use mosaikrun_check::{ranked, scenario_of};
use std::alloc::Global;

/// Runs a scenario without a fleet: the journal, where all is done.
pub fn journal_within(alloc: Global, kinds: &Registry, text: &str) -> Option<Journal> {
    match read(alloc, text) {
        Some(scenario) => journal_of_read(alloc, kinds, scenario),
        None => None,
    }
}

fn journal_of_read(alloc: Global, kinds: &Registry, scenario: Scenario) -> Option<Journal>
    requires { IsWellformed scenario }
{
    match run_read(alloc, kinds, scenario) {
        Some(ran) => journal_of(ran),
        None => None,
    }
}

fn run_read(alloc: Global, kinds: &Registry, scenario: Scenario) -> Option<Ran>
    requires { IsWellformed scenario }
{
    match ranks_of(alloc, kinds, &scenario) {
        Some(ranks) => run_ranked(alloc, kinds, scenario, ranks),
        None => None,
    }
}

fn run_ranked(alloc: Global, kinds: &Registry, scenario: Scenario, ranks: List<u32>) -> Option<Ran>
    requires wellformed { IsWellformed scenario }
    requires runnable { IsRunnable (map name_of (rows_in kinds.now)) scenario ranks }
{
    if is_wholly_within(&scenario) {
        within_handshakes_are_faultless();
        let mut nobody = Nobody;
        Some(run_local(alloc, scenario, ranks, kinds, &mut nobody))
    } else {
        None
    }
}

fn read(alloc: Global, text: &str) -> Option<Scenario>
    ensures { IfSome result (λ scenario. IsWellformed scenario) }
{
    scenario_of(alloc, text.as_bytes()).ok()
}

fn ranks_of(alloc: Global, kinds: &Registry, scenario: &Scenario) -> Option<List<u32>>
    requires { IsWellformed scenario.now }
    ensures { IfSome result
        (λ ranks. IsRunnable (map name_of (rows_in kinds.now)) scenario.now ranks) }
{
    let names = kinds.names(alloc).ok()?;
    ranked(alloc, &names, scenario).ok()
}

// The journal of a run in which all is done.
fn journal_of(ran: Ran) -> Option<Journal> {
    let mut ran = ran;
    let journal = take_journal(&mut ran);
    drop(ran);
    journal
}

fn take_journal(ran: &mut Ran) -> Option<Journal> {
    if is_done(&ran.outcome) {
        ran.journal.take()
    } else {
        None
    }
}

fn is_done(outcome: &Outcome) -> bool {
    match outcome {
        Outcome::Done => true,
        _ => false,
    }
}
