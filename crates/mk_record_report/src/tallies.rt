//! How many Steps each simulator was sent, and how many input values over them.
ghost use Rattle.std.specs.Prelude.{◌≡◌, ◌<◌, ◌≤◌, ◌-◌, ◌+◌, ◌^◌, ◌++◌, ◌∷◌, [], ℕ, List, All, IfOk};
ghost use Rattle.mk_plan.specs.declared.Entry.{Entry};
ghost use Rattle.mk_record_report.specs.inner.Parts.{step_count};
ghost use Rattle.mk_record_report.specs.inner.Summary.{AreTallies, all_values, value_count};

use crate::parts::steps_in;
use mk_base::Mem;
use mk_plan::{Entry, Item};
use std::alloc::Global;

// How many Steps one simulator was sent, and how many input values over them.
#[derive(Drop)]
pub struct Tally {
    pub steps: u64,
    pub values: u128,
}

// A tally for each of so many simulators, of what these entries sent it.
pub fn tallies_of(alloc: Global, count: usize, entries: &[Entry]) -> Result<Vec<Tally>, Mem>
    ensures each { IfOk result (λ tallies. AreTallies count entries.now tallies.items) }
    ensures within { IfOk result (λ tallies. all_values tallies.items < 2 ^ 128) }
{
    let mut tallies = empty_tallies(alloc, count)?;
    for entry in entries {
        note(&mut tallies, entry);
    }
    Ok(tallies)
}

// Tallies of nothing.
fn empty_tallies(alloc: Global, count: usize) -> Result<Vec<Tally>, Mem>
    ensures each { IfOk result (λ tallies. AreTallies count [] tallies.items) }
    ensures none { IfOk result (λ tallies. all_values tallies.items ≡ 0) }
{
    let mut tallies = Vec::new(alloc);
    for _ in 0..count {
        tallies.push(Tally {
            steps: 0,
            values: 0,
        })?;
    }
    Ok(tallies)
}

// The tallies after one more entry.
fn note(tallies: &mut Vec<Tally>, entry: &Entry)
    requires steps { All (λ t. t.steps < 2 ^ 64 - 1) tallies.old.items }
    requires values { all_values tallies.old.items + (2 ^ 64 - 1) < 2 ^ 128 }
    ensures each { (count : ℕ) → (J : List Entry) → AreTallies count J tallies.old.items
        → AreTallies count (J ++ entry.now ∷ []) tallies.new.items }
    ensures within { all_values tallies.new.items ≤ all_values tallies.old.items + (2 ^ 64 - 1) }
{
    match entry {
        Entry::Sent(sim, item) => {
            let place = sim.0 as usize;
            if place < tallies.as_slice().len() {
                add_item(&mut tallies[place], item);
            }
        }
        Entry::Got(_, _) => {}
    }
}

// The tally with one more item.
fn add_item(tally: &mut Tally, item: &Item)
    requires steps { tally.old.steps < 2 ^ 64 - 1 }
    requires values { tally.old.values + (2 ^ 64 - 1) < 2 ^ 128 }
    ensures steps { tally.new.steps ≡ tally.old.steps + step_count item.now }
    ensures values { tally.new.values ≡ tally.old.values + value_count item.now }
    ensures few { value_count item.now ≤ 2 ^ 64 - 1 }
{
    tally.steps += steps_in(item);
    tally.values += values_in(item) as u128;
}

// How many input values the item has.
fn values_in(item: &Item) -> u64
    ensures { result ≡ value_count item.now }
{
    match item {
        Item::Step {
            at: _,
            inputs,
            max_advance: _,
        } => inputs.len() as u64,
        Item::GetData { wanted: _ } => 0,
        Item::Answer { id: _, content: _ } => 0,
        Item::Refuse { id: _, reason: _ } => 0,
    }
}
