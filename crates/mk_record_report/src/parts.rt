//! The part of a report that is one simulator's.
ghost use Rattle.std.specs.Prelude.{◌≡◌, ◌<◌, ◌-◌, ◌+◌, ◌^◌, ◌++◌, ◌∷◌, [], ℕ, List, All, IfOk, OnOk};
ghost use Rattle.mk_plan.specs.declared.Entry.{Entry};
ghost use Rattle.mk_plan.specs.Report.{line_of};
ghost use Rattle.mk_record_report.specs.inner.Parts.{AreParts, step_count};

use crate::lines::put_line;
use mk_base::Mem;
use mk_plan::{Entry, Item};
use std::alloc::Global;

// The lines of what one simulator was sent, and how many Steps were among it.
#[derive(Drop)]
pub struct Part {
    pub lines: Vec<u8>,
    pub steps: u64,
}

// A part for each of so many simulators, of what these entries sent it.
pub fn parts_of(alloc: Global, count: usize, entries: &[Entry]) -> Result<Vec<Part>, Mem>
    ensures { IfOk result (λ parts. AreParts count entries.now parts.items) }
{
    let mut parts = empty_parts(alloc, count)?;
    for entry in entries {
        note(alloc, &mut parts, entry)?;
    }
    Ok(parts)
}

// Parts of nothing.
fn empty_parts(alloc: Global, count: usize) -> Result<Vec<Part>, Mem>
    ensures { IfOk result (λ parts. AreParts count [] parts.items) }
{
    let mut parts = Vec::new(alloc);
    for _ in 0..count {
        parts.push(Part {
            lines: Vec::new(alloc),
            steps: 0,
        })?;
    }
    Ok(parts)
}

// The parts after one more entry.
fn note(alloc: Global, parts: &mut Vec<Part>, entry: &Entry) -> Result<(), Mem>
    requires { All (λ p. p.steps < 2 ^ 64 - 1) parts.old.items }
    ensures { (count : ℕ) → (J : List Entry) → AreParts count J parts.old.items
        → OnOk result (AreParts count (J ++ entry.now ∷ []) parts.new.items) }
{
    match entry {
        Entry::Sent(sim, item) => {
            let place = sim.0 as usize;
            if place < parts.as_slice().len() {
                add_item(alloc, &mut parts[place], item)
            } else {
                Ok(())
            }
        }
        Entry::Got(_, _) => Ok(()),
    }
}

// The part with one more item.
fn add_item(alloc: Global, part: &mut Part, item: &Item) -> Result<(), Mem>
    requires { part.old.steps < 2 ^ 64 - 1 }
    ensures lines { OnOk result (part.new.lines.items ≡ part.old.lines.items ++ line_of item.now) }
    ensures steps { OnOk result (part.new.steps ≡ part.old.steps + step_count item.now) }
{
    put_line(alloc, &mut part.lines, item)?;
    part.steps += steps_in(item);
    Ok(())
}

// How many Steps the item is.
pub fn steps_in(item: &Item) -> u64
    ensures { result ≡ step_count item.now }
{
    match item {
        Item::Step {
            at: _,
            inputs: _,
            max_advance: _,
        } => 1,
        Item::GetData { wanted: _ } => 0,
        Item::Answer { id: _, content: _ } => 0,
        Item::Refuse { id: _, reason: _ } => 0,
    }
}
