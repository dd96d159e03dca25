//! What is said of how a resumed run ended.
ghost use Rattle.std.specs.Prelude.{◌≡◌, [], IfOk, IfErr, Ok, Err};
ghost use Rattle.mk_plan.specs.declared.Plan.{Plan};
ghost use Rattle.mk_run_crew.specs.declared.halt.Halt.{Halt};
ghost use Rattle.mk_run.specs.Outcomes.{outcome_of};
ghost use Rattle.mosaikrun_endings.specs.declared.ending.Ending.TheVariants as endings;
ghost use Rattle.mosaikrun_run.specs.Outcomes.{IsSaid};
ghost use Rattle.mosaikrun_run.specs.Sayings.{halt_ending};
ghost use Rattle.mosaikrun_sayings.specs.Sayings.{id_in};
ghost use Rattle.mosaikrun_resume.specs.Sayings.{resume_saying};
ghost use Rattle.mosaikrun_resume.specs.inner.Refusals.{IsRefusalEnd};
ghost use Rattle.mk_resume_loop.specs.declared.ending.ResumeEnd.TheVariants as ends;

use mk_base::{List, Mem, SimNo, Text};
use mk_plan::{Journal, Plan};
use mk_resume::ResumeEnd;
use mosaikrun_endings::Ending;
use mosaikrun_run::{Form, saying, unrun};
use mosaikrun_sayings::id_in;
use std::alloc::Global;

// What is said of a resumed run with a plan and a journal: its report, or why there is none.
pub fn saying_at(
    alloc: Global,
    ids: &List<Text>,
    end: ResumeEnd,
    plan: &Plan,
    journal: &Journal,
) -> Result<Vec<u8>, Ending>
    ensures text { IfOk result
        (λ text. resume_saying ids.now plan.now journal.now.entries end ≡ Ok text.items) }
    ensures none { IfErr result
        (λ e. IsSaid (resume_saying ids.now plan.now journal.now.entries end) (Err e)) }
{
    match end {
        ResumeEnd::Outcome(outcome) => { saying(alloc, Form::Report, ids, outcome, plan, journal) }
        ResumeEnd::OtherPlan(part) => Err(Ending::OtherPlan { part }),
        ResumeEnd::OtherEntry(entry) => Err(Ending::Differs { entry }),
        ResumeEnd::Differs { sim, place, .. } => Err(message_ending(alloc, ids, sim, place)?),
    }
}

// What is said of a message that isn't the record's.
fn message_ending(alloc: Global, ids: &List<Text>, sim: SimNo, place: u64) -> Result<Ending, Mem>
    ensures { IfOk result (λ e. e ≡ endings.OtherMessage (id_in ids.now sim) place) }
{
    Ok(Ending::OtherMessage {
        sim: id_in(alloc, ids, sim)?,
        place,
    })
}

// What is said of a run that had no journal, or that memory is wanting.
pub fn refusal(alloc: Global, ids: &List<Text>, end: ResumeEnd) -> Ending
    requires { IsRefusalEnd end }
    ensures halted { (h : Halt) → end ≡ ends.Outcome (outcome_of h)
        → IsSaid (Err (halt_ending ids.now h)) (Err result) }
    ensures refused { (P : Plan) → IsSaid (resume_saying ids.now P [] end) (Err result) }
{
    match end {
        ResumeEnd::Outcome(outcome) => unrun(alloc, ids, outcome),
        ResumeEnd::OtherPlan(part) => Ending::OtherPlan { part },
        ResumeEnd::OtherEntry(entry) => Ending::Differs { entry },
        ResumeEnd::Differs { .. } => unreachable!(),
    }
}
