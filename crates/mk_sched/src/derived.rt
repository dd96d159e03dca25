//! What is derived from the journal, and kept beside it so that it isn't read again.
ghost use Rattle.std.specs.Prelude.{[], None, IfOk};
ghost use Rattle.mk_plan.specs.Plans.{IsValidPlan};
ghost use Rattle.mk_sched.specs.inner.Holding.{HasToldRest};
ghost use Rattle.mk_sched.specs.inner.Derived.{IsDerived};

use mk_base::Mem;
use mk_plan::Plan;
use mk_sched_agenda::Agenda;
use mk_sched_open::Sims;
use mk_sched_supply::Stock;
use mk_tiers::Bits;
use std::alloc::Global;

// What is open at each simulator, when each is due, what was given so far, and of which simulators
// the stock has not been told from when on they may step since that changed.
#[derive(Drop)]
pub struct Derived {
    pub sims: Sims,
    pub agenda: Agenda,
    pub stock: Stock,
    pub untold: Bits,
}

// What is derived of no entry.
pub fn new_derived(alloc: Global, plan: &Plan) -> Result<Derived, Mem>
    requires { IsValidPlan plan.now }
    ensures derived { IfOk result (λ derived. IsDerived plan.now [] derived None) }
    ensures told { IfOk result (λ derived. HasToldRest plan.now derived None) }
{
    let sims = Sims::new(alloc, plan)?;
    let Ok(agenda) = Agenda::new(alloc, plan) else {
        drop(sims);
        return Err(Mem);
    };
    let Ok(stock) = Stock::new(alloc, plan) else {
        drop(sims);
        drop(agenda);
        return Err(Mem);
    };
    Ok(Derived {
        sims,
        agenda,
        stock,
        untold: Bits::below(plan.sims.len()),
    })
}
