//! How a message is taken: what it is judged to be, and what follows.
ghost use Rattle.std.specs.Prelude.{◌≡◌, ◌<◌, true, IfOk, Option, Some, None, FitsSigned};
ghost use Rattle.std.specs.Option.{ForSome};
ghost use Rattle.std.specs.Int.{w64};
ghost use Rattle.mk_base.specs.declared.tier.Tier.{Tier};
ghost use Rattle.mk_plan.specs.declared.Entry.{Entry};
ghost use Rattle.mk_plan.specs.declared.Entry.TheVariants.{Got};
ghost use Rattle.mk_plan.specs.declared.Item.TheVariants.{GetData};
ghost use Rattle.mk_plan.specs.declared.Place.{Place};
ghost use Rattle.mk_plan.specs.Plans.{IsValidPlan, sim_count};
ghost use Rattle.mk_plan.specs.Deliveries.{supply};
ghost use Rattle.mk_plan.specs.Sequential.{response};
ghost use Rattle.mk_plan.specs.Journals.{OpenTurn, View, view, note_right, note_sent};
ghost use Rattle.mk_buffers.specs.Standing.{HasSameMarks};
ghost use Rattle.mk_sched_open.specs.Turns.{IsInRun, IsRight, next_in};
ghost use Rattle.mk_sched_supply.specs.Stock.{IsStockOf, MayComeNext};
ghost use Rattle.mk_sched_supply.specs.Asking.{IsStepOpen};
ghost use Rattle.mk_sched.specs.inner.Holding.{Notes};
ghost use Rattle.mk_sched.specs.inner.Derived.{IsDerived, HasTaken, IsTaking, IsJudged, Leaves, time_at, fault_by};
ghost use Rattle.mk_plan.specs.Messages.{is_message_in_range};

use crate::derived::Derived;
use crate::ending::end_turn;
use crate::entries::{has_last_room, is_full, push_all, too_long};
use crate::faults::{CoreFault, Taken};
use mk_base::{List, Mem, SimNo, Tier};
use mk_plan::{Cause, Item, Journal, Message, Place, Plan, Want};
use mk_plan_judge::{next_place, next_time, wrong};
use mk_sched_open::ends_of_turns;
use mk_sched_supply::{Stock, stock_stays};
use std::alloc::Global;

// What follows a message with which the journal then ends: nothing; this is sent; or a fault.
#[derive(Drop)]
pub enum Upshot {
    Quiet,
    Send(Item),
    Fault(CoreFault),
}

// Ends the journal with a message of the simulator, and with what is owed after it, as far as there is room.
pub fn take(
    alloc: Global,
    plan: &Plan,
    derived: &mut Derived,
    journal: &mut Journal,
    sim: SimNo,
    message: Message,
) -> Result<Taken, Mem>
    requires derived { IsDerived plan.now journal.old.entries derived.old None }
    requires there { sim.0 < sim_count plan.now }
    requires form { is_message_in_range message ≡ true }
    ensures taken { HasTaken plan.now journal.old.entries sim message result derived.new
        journal.new.entries }
    ensures marks { HasSameMarks derived.old.stock.buffers derived.new.stock.buffers }
    ensures notes { IfOk result (λ _. Notes derived.old derived.new) }
{
    if is_full(plan, journal) {
        drop(message);
        return Ok(Taken::Fault(too_long(plan)));
    }
    match weigh(alloc, plan, derived, journal, sim, &message) {
        Ok(upshot) => push_all(journal, sim, message, upshot),
        Err(Mem) => {
            drop(message);
            Err(Mem)
        }
    }
}

// What follows a message for which there is room.
fn weigh(
    alloc: Global,
    plan: &Plan,
    derived: &mut Derived,
    journal: &Journal,
    sim: SimNo,
    message: &Message,
) -> Result<Upshot, Mem>
    requires taking { IsTaking plan.now journal.now.entries derived.old sim message.now }
    ensures leaves { IfOk result
        (λ upshot. Leaves plan.now journal.now.entries sim message.now upshot derived.new) }
    ensures marks { HasSameMarks derived.old.stock.buffers derived.new.stock.buffers }
    ensures notes { IfOk result (λ _. Notes derived.old derived.new) }
{
    let place = derived.sims.place(sim);
    match wrong(plan, derived.stock.wants(sim), sim, &place, message) {
        Some(cause) => Ok(Upshot::Fault(fault_by(sim, derived.sims.heard(sim), cause))),
        None => match next_place(derived.stock.wants(sim), &place, message) {
            Some(next) => go_on(alloc, plan, derived, journal, sim, message, place, next),
            None => end_turn(plan, derived, journal, sim, message, place),
        },
    }
}

// The fault that a wrong message makes, where so many messages were heard before it.
fn fault_by(sim: SimNo, heard: u64, cause: Cause) -> CoreFault
    ensures { result ≡ fault_by sim heard cause }
{
    match cause {
        Cause::Wrong(cause) => CoreFault::Wrong {
            sim,
            place: heard,
            cause,
        },
        Cause::Failed => CoreFault::Failed { sim, place: heard },
    }
}

// The turn goes on after the message, which came at `place`: what is owed is to be sent, if there is room for it.
fn go_on(
    alloc: Global,
    plan: &Plan,
    derived: &mut Derived,
    journal: &Journal,
    sim: SimNo,
    message: &Message,
    place: Place,
    next: Place,
) -> Result<Upshot, Mem>
    requires taking { IsTaking plan.now journal.now.entries derived.old sim message.now }
    requires judged { IsJudged plan.now (view plan.now journal.now.entries) sim.0 message.now place
        (Some next) }
    ensures leaves { IfOk result
        (λ upshot. Leaves plan.now journal.now.entries sim message.now upshot derived.new) }
    ensures marks { HasSameMarks derived.old.stock.buffers derived.new.stock.buffers }
    ensures notes { IfOk result (λ _. Notes derived.old derived.new) }
{
    if has_last_room(plan, journal) {
        return Ok(Upshot::Fault(too_long(plan)));
    }
    ends_of_turns();
    let at = time_at(&place);
    let item = owed_after(alloc, plan, &mut derived.stock, sim, at, message)?;
    derived.sims.go_on(sim, next, next_in(message));
    Ok(Upshot::Send(item))
}

// The time of what is open.
fn time_at(place: &Place) -> Tier
    requires { place.now ≡ Place.Idle → ⊥ }
    ensures { (other : Tier) → result ≡ time_at place.now other }
{
    match place {
        Place::Idle => unreachable!(),
        Place::Stepping { at, id: _, asks: _ } => *at,
        Place::Fetching { at, id: _ } => *at,
    }
}

// What is sent after a right message of a step at `at`, with which the turn goes on; the values that it sets are given.
fn owed_after(
    alloc: Global,
    plan: &Plan,
    stock: &mut Stock,
    sim: SimNo,
    at: Tier,
    message: &Message,
) -> Result<Item, Mem>
    requires valid { IsValidPlan plan.now }
    requires there { sim.0 < sim_count plan.now }
    requires asked { IsStepOpen plan.now sim.0 at stock.old }
    requires run { IsInRun at }
    requires right { (V : View) × (T : OpenTurn) × (q : Option Place)
        × IsRight plan.now V sim.0 message.now T q }
    requires form { is_message_in_range message.now ≡ true }
    ensures marks { HasSameMarks stock.old.buffers stock.new.buffers }
    ensures owed { (J : List Entry) → (T : OpenTurn) → (q : Place)
        → MayComeNext plan.now J (Got sim message.now)
        → IsRight plan.now (view plan.now J) sim.0 message.now T (Some q) → T.at ≡ at
        → IsStockOf plan.now (view plan.now J) stock.old
        → IfOk result (λ item. (item
        ≡ response plan.now (supply plan.now (view plan.now J).acts) sim.0 T.at T.place message.now)
        × IsStockOf plan.now
        (note_sent plan.now (note_right plan.now (view plan.now J) sim.0 message.now T (Some q))
        sim.0 item) stock.new) }
{
    stock_stays();
    match message {
        Message::Ask {
            id,
            name,
            args,
            named,
        } => stock.answer(plan, sim, at, *id, name, args, named),
        Message::Success { id: _, content: _ } => get_data(alloc, stock.wants(sim)),
        Message::Failure { id: _, text: _ } => unreachable!(),
    }
}

// The GetData that asks for these wants.
fn get_data(alloc: Global, wants: &List<Want>) -> Result<Item, Mem>
    ensures { IfOk result (λ item. item ≡ GetData wants.now) }
{
    let mut wanted = List::new(alloc);
    for want in wants.as_slice() {
        wanted.push(Want {
            eid: want.eid.copy()?,
            attr: want.attr.copy()?,
        })?;
    }
    Ok(Item::GetData { wanted })
}

// The next time that the message returns.
pub fn next_in(message: &Message) -> Option<i64>
    requires { ForSome (next_in message.now) (λ n. FitsSigned w64 n) }
    ensures { result ≡ next_in message.now }
{
    match message {
        Message::Ask {
            id: _,
            name: _,
            args: _,
            named: _,
        } => None,
        Message::Success { id: _, content } => next_time(content),
        Message::Failure { id: _, text: _ } => None,
    }
}
