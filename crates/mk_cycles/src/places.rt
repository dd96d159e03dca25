//! Places given one after the other, to the least-numbered simulator that may follow.
ghost use Rattle.std.specs.Prelude.{◌≡◌, ℕ, ◌<◌, ◌^◌, ◌↔◌, length, slice_get, Some, IsTrue, IfOk, MatchOption};
ghost use Rattle.mk_base.specs.Lists.{IsIn};
ghost use Rattle.mk_cycles.specs.Orders.{MayFollow, IsNext, IsOrder};
ghost use Rattle.mk_cycles.specs.inner.Tables.{leads};

use crate::listed::Listed;
use crate::table::Table;
use mk_base::{List, Mem};
use std::alloc::Global;

// Whether the simulator may come next: it has no place, and all that lead to it have one.
fn may_follow(table: &Table, placed: &Listed, sim: usize) -> bool
    requires count { placed.now.count ≡ table.now.sims }
    requires below { sim < table.now.sims }
    ensures { IsTrue result ↔ MayFollow (leads table.now) table.now.sims placed.now.order sim }
{
    if placed.has(sim) {
        return false;
    }
    for from in 0..table.sims() {
        if table.leads(from, sim) && !placed.has(from) {
            return false;
        }
    }
    true
}

// The least-numbered simulator that may come next.
fn next_sim(table: &Table, placed: &Listed) -> Option<usize>
    requires { placed.now.count ≡ table.now.sims }
    ensures { MatchOption result ((s : ℕ)
        → MayFollow (leads table.now) table.now.sims placed.now.order s
        → ⊥) (λ s. IsNext (leads table.now) table.now.sims placed.now.order s) }
{
    for sim in 0..table.sims() {
        if may_follow(table, placed, sim) {
            return Some(sim);
        }
    }
    None
}

// The simulators in the order of their ranks, as far as it goes.
pub fn places(alloc: Global, table: &Table) -> Result<Listed, Mem>
    ensures count { IfOk result (λ placed. placed.count ≡ table.now.sims) }
    ensures order { IfOk result (λ placed. IsOrder (leads table.now) table.now.sims placed.order) }
    ensures last { IfOk result (λ placed. (s : ℕ)
        → MayFollow (leads table.now) table.now.sims placed.order s → ⊥) }
{
    let mut placed = Listed::new(alloc, table.sims())?;
    'placing: while let Some(sim) = next_sim(table, &placed) {
        placed.push(sim)?;
    }
    Ok(placed)
}

// The rank of each simulator, which is its place in the order.
pub fn ranks_by_place(alloc: Global, placed: &Listed) -> Result<List<u32>, Mem>
    requires all { length placed.now.order ≡ placed.now.count }
    requires each { (s : ℕ) → s < placed.now.count → IsIn s placed.now.order }
    requires small { placed.now.count < 2 ^ 32 }
    ensures length { IfOk result (λ ranks. length ranks ≡ placed.now.count) }
    ensures inverse { IfOk result (λ ranks. (s r : ℕ)
        → (slice_get ranks s ≡ Some r) ↔ (slice_get placed.now.order r ≡ Some s)) }
{
    let mut ranks = List::new(alloc);
    for _sim in 0..placed.count() {
        ranks.push(0)?;
    }
    let order = placed.order();
    for rank in 0..order.len() {
        ranks.set(order[rank], rank as u32);
    }
    Ok(ranks)
}
