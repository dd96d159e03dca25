//! How the first simulator that is ready is asked for its step.
ghost use Rattle.std.specs.Prelude.{◌≡◌, ◌≢◌, ◌<◌, length, None, IfOk, IfErr};
ghost use Rattle.mk_plan.specs.declared.Plan.{Plan};
ghost use Rattle.mk_plan.specs.Journals.{view};
ghost use Rattle.mk_plan.specs.Ready.{IsReady};
ghost use Rattle.mk_plan.specs.Advance.{IsAdvance};
ghost use Rattle.mk_plan.specs.Orderly.{IsFirstReady};
ghost use Rattle.mk_sched.specs.Answers.{IsAsked};
ghost use Rattle.mk_sched.specs.inner.Holding.{HasToldRest, HasGivenUp, Notes};
ghost use Rattle.mk_sched.specs.inner.Derived.{IsDerived, HasAdvanced, core_of, end_after_next};

use crate::derived::Derived;
use crate::entries::{is_full, too_long};
use crate::faults::Next;
use crate::marks::give_up;
use mk_base::Mem;
use mk_plan::{Entry, Item, Journal, Plan};
use mk_sched_agenda::Ready;
use mk_sched_supply::stock_stays;

// Asks the first simulator that is ready, if the journal has room.
pub fn advance(plan: &Plan, derived: &mut Derived, journal: &mut Journal) -> Result<Next, Mem>
    requires derived { IsDerived plan.now journal.old.entries derived.old None }
    requires given_up { HasGivenUp plan.now journal.old.entries derived.old None }
    requires told { HasToldRest plan.now derived.old None }
    ensures advanced { HasAdvanced plan.now journal.old.entries result derived.new
        journal.new.entries }
    ensures told { HasToldRest plan.now derived.new (end_after_next result) }
{
    match derived.agenda.first_ready() {
        Some(ready) => {
            if is_full(plan, journal) {
                Ok(Next::Fault(too_long(plan)))
            } else {
                ask(derived, journal, ready)?;
                give_up(plan, derived, None);
                Ok(Next::Ask(ready.sim))
            }
        }
        None => {
            if derived.agenda.is_any_open() {
                Ok(Next::Wait)
            } else {
                Ok(Next::Done)
            }
        }
    }
}

// Begins a step of the simulator that is ready, and ends the journal with its Step.
fn ask(derived: &mut Derived, journal: &mut Journal, ready: Ready) -> Result<(), Mem>
    requires sims { ready.sim.0 < length derived.old.sims }
    requires queues { ready.sim.0 < length derived.old.agenda.queues }
    ensures ok { (P : Plan) → IsDerived P journal.old.entries derived.old None
        → length journal.old.entries ≢ P.entries
        → IsFirstReady IsReady IsAdvance P (view P journal.old.entries) ready.sim.0 ready.at
        → IfOk result (λ _. IsDerived P journal.new.entries derived.new None
        × IsAsked (core_of P journal.old.entries None) ready.sim
        (core_of P journal.new.entries None)) }
    ensures err { IfErr result (λ _. journal.new.entries ≡ journal.old.entries) }
    ensures stock { derived.new.stock ≡ derived.old.stock }
    ensures notes { IfOk result (λ _. Notes derived.old derived.new) }
{
    let Ready { sim, at } = ready;
    let previous = derived.agenda.last_step(sim);
    let inputs = derived.stock.inputs_at(sim, previous, at)?;
    let max_advance = derived.agenda.max_advance(sim, at);
    journal.entries.push(Entry::Sent(
        sim,
        Item::Step {
            at,
            inputs,
            max_advance,
        },
    ))?;
    derived.agenda.step(sim, &mut derived.untold);
    derived.sims.begin(sim, at);
    stock_stays();
    Ok(())
}
