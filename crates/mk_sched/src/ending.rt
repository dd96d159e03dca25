//! How a turn ends by its last message.
ghost use Rattle.std.specs.Prelude.{◌≡◌, None, IfOk, FitsSigned, option_and_then};
ghost use Rattle.std.specs.Option.{ForSome};
ghost use Rattle.std.specs.Int.{w64};
ghost use Rattle.mk_base.specs.Trees.{whole_in};
ghost use Rattle.mk_plan.specs.Turns.{time_in};
ghost use Rattle.mk_plan.specs.Journals.{view};
ghost use Rattle.mk_plan.specs.Acts.{content_of};
ghost use Rattle.mk_buffers.specs.Standing.{HasSameMarks};
ghost use Rattle.mk_sched.specs.inner.Holding.{Notes};
ghost use Rattle.mk_sched.specs.inner.Derived.{Leaves, IsTaking, IsJudged, EndsStep, EndsFetch, limit_by, made_at};

use crate::derived::Derived;
use crate::faults::CoreFault;
use crate::taking::{Upshot, next_in};
use mk_base::{Json, Mem, SimNo, Tier};
use mk_plan::{Journal, Message, Place, Plan};
use mk_plan_judge::output_time;
use mk_sched_agenda::Beyond;
use mk_sched_open::ends_of_turns;
use mk_sched_supply::stock_stays;

// The turn ends by the message, which came at `place`.
pub fn end_turn(
    plan: &Plan,
    derived: &mut Derived,
    journal: &Journal,
    sim: SimNo,
    message: &Message,
    place: Place,
) -> Result<Upshot, Mem>
    requires taking { IsTaking plan.now journal.now.entries derived.old sim message.now }
    requires judged { IsJudged plan.now
        (view plan.now journal.now.entries) sim.0 message.now place None }
    ensures leaves { IfOk result
        (λ upshot. Leaves plan.now journal.now.entries sim message.now upshot derived.new) }
    ensures marks { HasSameMarks derived.old.stock.buffers derived.new.stock.buffers }
    ensures notes { IfOk result (λ _. Notes derived.old derived.new) }
{
    match (place, message) {
        (Place::Stepping { at, id: _, asks: _ }, Message::Success { id: _, content: _ }) => {
            end_step(plan, derived, journal, sim, message, at)
        }
        (Place::Fetching { at, id: _ }, Message::Success { id: _, content }) => {
            end_fetch(plan, derived, journal, sim, message, content, at)
        }
        _ => unreachable!(),
    }
}

// A turn at `at` ends by the reply to its Step: nothing is given.
fn end_step(
    plan: &Plan,
    derived: &mut Derived,
    journal: &Journal,
    sim: SimNo,
    message: &Message,
    at: Tier,
) -> Result<Upshot, Mem>
    requires taking { IsTaking plan.now journal.now.entries derived.old sim message.now }
    requires ends { EndsStep plan.now (view plan.now journal.now.entries) sim.0 message.now at }
    ensures leaves { IfOk result
        (λ upshot. Leaves plan.now journal.now.entries sim message.now upshot derived.new) }
    ensures marks { HasSameMarks derived.old.stock.buffers derived.new.stock.buffers }
    ensures notes { IfOk result (λ _. Notes derived.old derived.new) }
{
    ends_of_turns();
    stock_stays();
    let ended = derived
        .agenda
        .end_turn(sim, at, next_in(message), &[], &mut derived.untold)?;
    match ended {
        Some(beyond) => Ok(Upshot::Fault(limit_by(beyond))),
        None => {
            derived.sims.end(sim);
            Ok(Upshot::Quiet)
        }
    }
}

// A turn at `at` ends by the reply to its GetData, whose content gives its outputs.
fn end_fetch(
    plan: &Plan,
    derived: &mut Derived,
    journal: &Journal,
    sim: SimNo,
    message: &Message,
    content: &Json,
    at: Tier,
) -> Result<Upshot, Mem>
    requires taking { IsTaking plan.now journal.now.entries derived.old sim message.now }
    requires ends { EndsFetch plan.now (view plan.now journal.now.entries) sim.0 message.now at }
    requires content { content_of message.now ≡ Some content.now }
    ensures leaves { IfOk result
        (λ upshot. Leaves plan.now journal.now.entries sim message.now upshot derived.new) }
    ensures marks { HasSameMarks derived.old.stock.buffers derived.new.stock.buffers }
    ensures notes { IfOk result (λ _. Notes derived.old derived.new) }
{
    ends_of_turns();
    let made = made_at(at, content);
    let next = derived.sims.next(sim);
    let outputs = derived.stock.outputs(sim, content)?;
    let answer = derived.agenda.end_turn(
        sim,
        made,
        next,
        outputs.given.as_slice(),
        &mut derived.untold,
    );
    let Ok(ended) = answer else {
        drop(outputs);
        return Err(Mem);
    };
    match ended {
        Some(beyond) => {
            drop(outputs);
            Ok(Upshot::Fault(limit_by(beyond)))
        }
        None => {
            let taken = derived.stock.take_outputs(sim, made, &outputs);
            drop(outputs);
            taken?;
            derived.sims.end(sim);
            Ok(Upshot::Quiet)
        }
    }
}

// The fault of a trigger beyond the loop limit.
fn limit_by(beyond: Beyond) -> CoreFault
    ensures { result ≡ limit_by beyond }
{
    CoreFault::LoopLimit {
        sim: beyond.sim,
        time: beyond.time,
    }
}

// When the outputs of a step at `at` are made, where its data have this content.
fn made_at(at: Tier, content: &Json) -> Tier
    requires { ForSome (option_and_then whole_in (time_in content.now)) (λ n. FitsSigned w64 n) }
    ensures { result ≡ made_at at content.now }
{
    match output_time(content) {
        Some(time) if at.time < time => Tier { time, tier: 0 },
        _ => at,
    }
}
