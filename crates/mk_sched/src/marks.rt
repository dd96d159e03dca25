//! What no question reaches any more is given up.
ghost use Rattle.std.specs.Prelude.{◌≡◌, ◌≢◌, ℕ, ◌≤◌, ◌<◌, length, List, None};
ghost use Rattle.mk_base.specs.Tiers.{moment};
ghost use Rattle.mk_plan.specs.declared.Entry.{Entry};
ghost use Rattle.mk_plan.specs.Plans.{IsValidPlan, sim_count};
ghost use Rattle.mk_plan.specs.Journals.{View};
ghost use Rattle.mk_sched_agenda.specs.Mirrors.{Mirrors};
ghost use Rattle.mk_buffers.specs.Standing.{mark_of};
ghost use Rattle.mk_sched_supply.specs.Stock.{IsStockOf};
ghost use Rattle.mk_sched.specs.inner.Holding.{AllAreTold, AreToldBut, HasToldRest, HasGivenUp, IsToldTo};
ghost use Rattle.mk_sched.specs.inner.Derived.{IsDerived};

use crate::derived::Derived;
use crate::faults::Ended;
use mk_base::{SimNo, Tier};
use mk_plan::Plan;
use mk_sched_agenda::Agenda;
use mk_sched_supply::Stock;
use mk_tiers::Bits;

// Where the core has not ended, and nobody is ready, tells the stock from when on each simulator may
// step of which it has not been told since that changed: what no question reaches any more is given
// up.
pub fn give_up(plan: &Plan, derived: &mut Derived, ended: Option<Ended>)
    requires valid { IsValidPlan plan.now }
    requires whole { ended ≡ None → sim_count plan.now ≤ length derived.old.agenda.queues }
    ensures { (J : List Entry) → IsDerived plan.now J derived.old ended
        → HasToldRest plan.now derived.old ended → IsDerived plan.now J derived.new ended
        × HasGivenUp plan.now J derived.new ended × HasToldRest plan.now derived.new ended }
{
    if ended.is_some() {
        return;
    }
    match derived.agenda.first_ready() {
        Some(_) => {}
        None => tell_all(
            plan,
            &derived.agenda,
            &mut derived.stock,
            &mut derived.untold,
        ),
    }
}

// Tells the stock from when on each of these may step; then none of them is left.
fn tell_all(plan: &Plan, agenda: &Agenda, stock: &mut Stock, untold: &mut Bits)
    requires valid { IsValidPlan plan.now }
    requires whole { sim_count plan.now ≤ length agenda.now.queues }
    ensures stock { (V : View) → Mirrors plan.now V agenda.now → IsStockOf plan.now V stock.old
        → IsStockOf plan.now V stock.new }
    ensures told { (V : View) → Mirrors plan.now V agenda.now → IsStockOf plan.now V stock.old
        → AreToldBut plan.now agenda.now.bounds stock.old untold.old
        → AllAreTold plan.now agenda.now.bounds stock.new }
{
    'telling: while let Some(number) = untold.take_from(0) {
        tell(plan, agenda, stock, number);
    }
}

// Tells the stock from when on the simulator of this number may step, if there is one.
fn tell(plan: &Plan, agenda: &Agenda, stock: &mut Stock, number: usize)
    requires valid { IsValidPlan plan.now }
    requires whole { sim_count plan.now ≤ length agenda.now.queues }
    ensures stock { (V : View) → Mirrors plan.now V agenda.now → IsStockOf plan.now V stock.old
        → IsStockOf plan.now V stock.new }
    ensures told { (V : View) → Mirrors plan.now V agenda.now → IsStockOf plan.now V stock.old
        → number < sim_count plan.now
        → IsToldTo plan.now agenda.now.bounds number (mark_of stock.new.buffers number) }
    ensures others { (V : View) → Mirrors plan.now V agenda.now → IsStockOf plan.now V stock.old
        → (r : ℕ) → r ≢ number → mark_of stock.new.buffers r ≡ mark_of stock.old.buffers r }
{
    if number >= plan.sims.len() {
        return;
    }
    forget_of(plan, agenda, stock, SimNo(number as u32));
}

// The run's end.
fn end_of(plan: &Plan) -> Tier
    requires { IsValidPlan plan.now }
    ensures { result ≡ moment plan.now.until }
{
    Tier {
        time: plan.until,
        tier: 0,
    }
}

// Gives up what no question of the simulator reaches any more.
fn forget_of(plan: &Plan, agenda: &Agenda, stock: &mut Stock, sim: SimNo)
    requires valid { IsValidPlan plan.now }
    requires there { sim.0 < sim_count plan.now }
    requires whole { sim_count plan.now ≤ length agenda.now.queues }
    ensures stock { (V : View) → Mirrors plan.now V agenda.now → IsStockOf plan.now V stock.old
        → IsStockOf plan.now V stock.new }
    ensures told { (V : View) → Mirrors plan.now V agenda.now → IsStockOf plan.now V stock.old
        → IsToldTo plan.now agenda.now.bounds sim.0 (mark_of stock.new.buffers sim.0) }
    ensures others { (V : View) → Mirrors plan.now V agenda.now → IsStockOf plan.now V stock.old
        → (r : ℕ) → r ≢ sim.0 → mark_of stock.new.buffers r ≡ mark_of stock.old.buffers r }
{
    stock.forget_before(sim, agenda.earliest(sim).unwrap_or(end_of(plan)));
}
