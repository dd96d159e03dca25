//! What is said of how a run ended.
ghost use Rattle.std.specs.Prelude.{◌≡◌, IfOk, IfErr, Ok, Err};
ghost use Rattle.mk_plan.specs.Journals.{sent};
ghost use Rattle.mk_run_crew.specs.declared.halt.Halt.{Halt};
ghost use Rattle.mk_run.specs.Outcomes.{outcome_of};
ghost use Rattle.mosaikrun_sayings.specs.Sayings.{id_in};
ghost use Rattle.mosaikrun_run.specs.Sayings.{IsHalt, halt_ending, saying_of, text_of};
ghost use Rattle.mosaikrun_run.specs.Outcomes.{IsSaid};

use mk_base::{List, Mem, SimNo, Text};
use mk_plan::{Journal, Plan};
use mk_record::{write_report, write_summary};
use mk_run::Outcome;
use mosaikrun_endings::{Ending, LinkFault};
use mosaikrun_sayings::{id_in, setup_ending, stopped};
use std::alloc::Global;

/// What is printed of a run in which all is done.
#[derive(Clone, Copy, Debug, PartialEq, Eq)]
pub enum Form {
    /// What each simulator was sent.
    Report,
    /// How many steps each simulator had and how many input values, the totals of both, and the last step of the last
    /// simulator with one.
    Summary,
}

// What is said of a link of a simulator.
fn link_ending(alloc: Global, ids: &List<Text>, sim: SimNo, fault: LinkFault) -> Result<Ending, Mem>
    ensures { IfOk result (λ e. e ≡ Ending.Link (id_in ids.now sim) fault) }
{
    Ok(Ending::Link {
        sim: id_in(alloc, ids, sim)?,
        fault,
    })
}

// What is said of a run that had no plan.
pub fn halt_ending(alloc: Global, ids: &List<Text>, outcome: Outcome) -> Result<Ending, Mem>
    requires { IsHalt outcome }
    ensures { (h : Halt) → outcome ≡ outcome_of h → IfOk result (λ e. e ≡ halt_ending ids.now h) }
{
    match outcome {
        Outcome::Setup(fault) => setup_ending(alloc, ids, fault),
        Outcome::Fleet => Ok(Ending::Fleet),
        Outcome::Gone(sim) => link_ending(alloc, ids, sim, LinkFault::Closed),
        Outcome::Garbled(sim, test) => link_ending(alloc, ids, sim, LinkFault::Garbled(test)),
        Outcome::LongFrame(sim, n) => link_ending(alloc, ids, sim, LinkFault::LongFrame(n)),
        Outcome::LongItem(sim, n) => long_ending(alloc, ids, sim, n),
        Outcome::Mem => Ok(Ending::Mem),
        Outcome::Done | Outcome::Core(_) => unreachable!(),
    }
}

// What is said of an item to a simulator that is too long.
fn long_ending(alloc: Global, ids: &List<Text>, sim: SimNo, n: usize) -> Result<Ending, Mem>
    ensures { IfOk result (λ e. e ≡ Ending.LongItem (id_in ids.now sim) n) }
{
    Ok(Ending::LongItem {
        sim: id_in(alloc, ids, sim)?,
        length: n as u64,
    })
}

// The text of what a run sent, in this form.
fn text_of(alloc: Global, form: Form, plan: &Plan, journal: &Journal) -> Result<Vec<u8>, Mem>
    ensures { IfOk result (λ text. text.items ≡ text_of form plan.now (sent journal.now.entries)) }
{
    match form {
        Form::Report => write_report(alloc, plan, journal),
        Form::Summary => write_summary(alloc, plan, journal),
    }
}

/// What is said of a run with a plan and a journal: its text in this form, or why there is none.
pub fn saying(
    alloc: Global,
    form: Form,
    ids: &List<Text>,
    outcome: Outcome,
    plan: &Plan,
    journal: &Journal,
) -> Result<Vec<u8>, Ending>
    ensures text { IfOk result (λ text. saying_of form ids.now plan.now journal.now.entries outcome
        ≡ Ok text.items) }
    ensures none { IfErr result
        (λ e. IsSaid (saying_of form ids.now plan.now journal.now.entries outcome) (Err e)) }
{
    match outcome {
        Outcome::Done => Ok(text_of(alloc, form, plan, journal)?),
        Outcome::Core(fault) => Err(stopped(alloc, plan, journal, fault)?),
        halt => Err(halt_ending(alloc, ids, halt)?),
    }
}
