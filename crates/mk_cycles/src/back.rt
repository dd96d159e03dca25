//! The way back from what has no rank, until it closes: the cycle.
ghost use Rattle.std.specs.Prelude.{◌≡◌, ℕ, suc, ◌<◌, ◌≤◌, ◌^◌, ◌++◌, ◌∷◌, [], length, reverse, take, drop, slice_get, slice_index, Some, IfOk};
ghost use Rattle.mk_base.specs.Lists.{Each, IsIn};
ghost use Rattle.mk_cycles.specs.Cycles.{IsBack, IsUnplaced, IsLoop, IsGoneBackTo};
ghost use Rattle.mk_cycles.specs.Edges.{IsChain};
ghost use Rattle.mk_cycles.specs.Orders.{MayFollow};
ghost use Rattle.mk_cycles.specs.Outcomes.{numbers};
ghost use Rattle.mk_cycles.specs.inner.Tables.{leads};

use crate::listed::Listed;
use crate::table::Table;
use mk_base::{List, Mem, SimNo};
use std::alloc::Global;

// The least-numbered simulator left that leads to this one, which is left.
fn back(table: &Table, placed: &Listed, sim: usize) -> usize
    requires count { placed.now.count ≡ table.now.sims }
    requires left { IsUnplaced table.now.sims placed.now.order sim }
    requires stuck { MayFollow (leads table.now) table.now.sims placed.now.order sim → ⊥ }
    ensures { IsBack (leads table.now) table.now.sims placed.now.order sim result }
{
    for from in 0..table.sims() {
        if table.leads(from, sim) && !placed.has(from) {
            return from;
        }
    }
    unreachable!()
}

// The place of a number that is there.
fn place_of(numbers: &[usize], number: usize) -> usize
    requires { IsIn number numbers.now }
    ensures { slice_get numbers.now result ≡ Some number }
{
    for i in 0..numbers.len() {
        if numbers[i] == number {
            return i;
        }
    }
    unreachable!()
}

// The place of the least number.
fn place_of_least(numbers: &[usize]) -> usize
    requires { 0 < length numbers.now }
    ensures place { result < length numbers.now }
    ensures least { (i : ℕ) → i < length numbers.now
        → slice_index numbers.now result ≤ slice_index numbers.now i }
{
    let mut best = 0;
    for i in 1..numbers.len() {
        if numbers[i] < numbers[best] {
            best = i;
        }
    }
    best
}

// The simulators from the start on, each time the one back, and the first that comes up again.
fn trail(
    alloc: Global,
    table: &Table,
    placed: &Listed,
    start: usize,
) -> Result<(Listed, usize), Mem>
    requires count { placed.now.count ≡ table.now.sims }
    requires stuck { (s : ℕ) → MayFollow (leads table.now) table.now.sims placed.now.order s → ⊥ }
    requires left { IsUnplaced table.now.sims placed.now.order start }
    requires least { (t : ℕ) → IsUnplaced table.now.sims placed.now.order t → start ≤ t }
    ensures again { IfOk result (λ trail. IsIn trail.1 trail.0.order) }
    ensures reached { IfOk result
        (λ trail. Each (λ s.
        IsGoneBackTo (leads table.now) table.now.sims placed.now.order s) trail.0.order) }
    ensures chain { IfOk result
        (λ trail. IsChain (λ s p. IsBack (leads table.now) table.now.sims placed.now.order s p)
        (trail.0.order ++ trail.1 ∷ [])) }
{
    let mut path = Listed::new(alloc, table.sims())?;
    let mut sim = start;
    'going: while !path.has(sim) {
        path.push(sim)?;
        sim = back(table, placed, sim);
    }
    Ok((path, sim))
}

// The loop turned into the other direction, from its least number.
fn turned(alloc: Global, around: &[usize]) -> Result<Vec<usize>, Mem>
    requires { 0 < length around.now }
    ensures { IfOk result (λ walk. (i : ℕ) × (i < length around.now)
        × ((j : ℕ) → j < length around.now → slice_index around.now i ≤ slice_index around.now j)
        × (walk.items ≡ reverse (drop (suc i) around.now ++ take (suc i) around.now))) }
{
    let least = place_of_least(around);
    let mut walk = Vec::from_slice(alloc, around)?;
    walk.rotate_left(least + 1);
    walk.reverse();
    Ok(walk)
}

fn as_sims(alloc: Global, numbered: &[usize]) -> Result<List<SimNo>, Mem>
    requires { Each (λ s. s < 2 ^ 32) numbered.now }
    ensures { IfOk result (λ sims. numbers sims ≡ numbered.now) }
{
    let mut sims = List::new(alloc);
    for number in numbered {
        sims.push(SimNo(*number as u32))?;
    }
    Ok(sims)
}

// The cycle that going back from the least-numbered simulator left comes to.
pub fn cycle(
    alloc: Global,
    table: &Table,
    placed: &Listed,
    start: usize,
) -> Result<List<SimNo>, Mem>
    requires count { placed.now.count ≡ table.now.sims }
    requires small { table.now.sims < 2 ^ 32 }
    requires stuck { (s : ℕ) → MayFollow (leads table.now) table.now.sims placed.now.order s → ⊥ }
    requires left { IsUnplaced table.now.sims placed.now.order start }
    requires least { (t : ℕ) → IsUnplaced table.now.sims placed.now.order t → start ≤ t }
    ensures { IfOk result
        (λ walk. IsLoop (leads table.now) table.now.sims placed.now.order (numbers walk)) }
{
    let (path, again) = trail(alloc, table, placed, start)?;
    let order = path.order();
    let around = &order[place_of(order, again)..];
    let walk = turned(alloc, around)?;
    let sims = as_sims(alloc, &walk)?;
    Ok(sims)
}
