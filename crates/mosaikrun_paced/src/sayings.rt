//! What is said of how a paced run ended.
ghost use Rattle.std.specs.Prelude.{◌≡◌, IfOk, IfErr, Ok, Err};
ghost use Rattle.mk_run_crew.specs.declared.halt.Halt.{Halt};
ghost use Rattle.mk_run.specs.Outcomes.{outcome_of};
ghost use Rattle.mk_pace_laws.specs.declared.end.PaceEnd.TheVariants as ends;
ghost use Rattle.mosaikrun_endings.specs.declared.ending.Ending.TheVariants as endings;
ghost use Rattle.mosaikrun_run.specs.Outcomes.{IsSaid};
ghost use Rattle.mosaikrun_run.specs.Sayings.{halt_ending};
ghost use Rattle.mosaikrun_sayings.specs.Sayings.{id_in};
ghost use Rattle.mosaikrun_paced.specs.Sayings.{pace_saying};
ghost use Rattle.mosaikrun_paced.specs.inner.Halts.{IsHaltEnd};

use mk_base::{List, Mem, SimNo, Text};
use mk_pace::PaceEnd;
use mk_plan::{Journal, Plan};
use mosaikrun_endings::Ending;
use mosaikrun_run::{Form, saying, unrun};
use mosaikrun_sayings::id_in;
use std::alloc::Global;

// What is said of a paced run with a plan and a journal: its report, or why there is none.
pub fn saying_at(
    alloc: Global,
    ids: &List<Text>,
    end: PaceEnd,
    plan: &Plan,
    journal: &Journal,
) -> Result<Vec<u8>, Ending>
    ensures text { IfOk result
        (λ text. pace_saying ids.now plan.now journal.now.entries end ≡ Ok text.items) }
    ensures none { IfErr result
        (λ e. IsSaid (pace_saying ids.now plan.now journal.now.entries end) (Err e)) }
{
    match end {
        PaceEnd::Outcome(outcome) => saying(alloc, Form::Report, ids, outcome, plan, journal),
        PaceEnd::Late {
            sim,
            time,
            late,
            allowed,
        } => Err(late_ending(alloc, ids, sim, time, late, allowed)?),
    }
}

// What is said of a Step that was too late.
fn late_ending(
    alloc: Global,
    ids: &List<Text>,
    sim: SimNo,
    time: i64,
    late: u64,
    allowed: u64,
) -> Result<Ending, Mem>
    ensures { IfOk result (λ e. e ≡ endings.Late (id_in ids.now sim) time late allowed) }
{
    Ok(Ending::Late {
        sim: id_in(alloc, ids, sim)?,
        time,
        late,
        allowed,
    })
}

// What is said of a run that had no journal, or that memory is wanting.
pub fn unpaced(alloc: Global, ids: &List<Text>, end: PaceEnd) -> Ending
    requires { IsHaltEnd end }
    ensures { (h : Halt) → end ≡ ends.Outcome (outcome_of h)
        → IsSaid (Err (halt_ending ids.now h)) (Err result) }
{
    match end {
        PaceEnd::Outcome(outcome) => unrun(alloc, ids, outcome),
        PaceEnd::Late { .. } => unreachable!(),
    }
}
