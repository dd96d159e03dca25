//! The summary of a journal.
ghost use Rattle.std.specs.Prelude.{◌≡◌, ◌++◌, IfOk, OnOk, option_map};
ghost use Rattle.mk_base.specs.Lists.{last_of};
ghost use Rattle.mk_plan.specs.Journals.{sent};
ghost use Rattle.mk_plan.specs.Report.{steps_in, summary, counts, last_line};
ghost use Rattle.mk_record_report.specs.inner.Summary.{later, step_to, steps_at};

use crate::lines::{put_bytes, put_count, put_line};
use crate::parts::steps_in;
use crate::tallies::tallies_of;
use mk_base::{Mem, put};
use mk_plan::{Entry, Item, Journal, Plan};
use std::alloc::Global;

/// The summary of a journal (`docs/formats.md`, "Summary"): for each simulator in the order of the plan its id, the
/// number of its Steps and that of the input values over them, then the totals of both, and at last the line of the
/// last Step of the greatest-numbered simulator that has one, if one has. `Mem` is want of memory.
pub fn write_summary(alloc: Global, plan: &Plan, journal: &Journal) -> Result<Vec<u8>, Mem>
    ensures { IfOk result (λ text. text.items ≡ summary plan.now (sent journal.now.entries)) }
{
    let entries = journal.entries.as_slice();
    let tallies = tallies_of(alloc, plan.sims.len(), entries)?;
    let mut out = Vec::new(alloc);
    let mut steps: u128 = 0;
    let mut values: u128 = 0;
    let mut last = None;
    for (place, sim) in plan.sims.as_slice().iter().enumerate() {
        let tally = &tallies[place];
        put_counts(
            alloc,
            &mut out,
            sim.id.bytes(),
            tally.steps as u128,
            tally.values,
        )?;
        steps += tally.steps as u128;
        values += tally.values;
        if tally.steps > 0 {
            last = Some(place);
        }
    }
    put_counts(alloc, &mut out, b"total", steps, values)?;
    put_last(alloc, &mut out, entries, last)?;
    Ok(out)
}

// Appends a line of this name: how many Steps there are, and how many input values.
fn put_counts(
    alloc: Global,
    out: &mut Vec<u8>,
    name: &[u8],
    steps: u128,
    values: u128,
) -> Result<(), Mem>
    ensures { OnOk result (out.new.items ≡ out.old.items ++ (name.now ++ counts steps values)) }
{
    put_bytes(out, name)?;
    put(out, " ")?;
    put_count(alloc, out, steps)?;
    put(out, " ")?;
    put_count(alloc, out, values)?;
    put(out, "\n")
}

// Appends the line of the last Step of this simulator, if one is named.
fn put_last(
    alloc: Global,
    out: &mut Vec<u8>,
    entries: &[Entry],
    sim: Option<usize>,
) -> Result<(), Mem>
    ensures { OnOk result (out.new.items ≡ out.old.items
        ++ last_line (steps_at (sent entries.now) sim)) }
{
    match sim {
        None => Ok(()),
        Some(place) => match last_step(entries, place) {
            None => Ok(()),
            Some(item) => {
                put(out, "last ")?;
                put_line(alloc, out, item)
            }
        },
    }
}

// The last Step that was sent to this simulator.
fn last_step(entries: &[Entry], sim: usize) -> Option<&Item>
    ensures { option_map (λ item. item.now) result ≡ last_of (steps_in (sent entries.now sim)) }
{
    let mut last = None;
    for entry in entries {
        last = later(last, step_to(entry, sim));
    }
    last
}

// The second item, if there is one, else the first.
fn later<'a>(first: Option<&'a Item>, second: Option<&'a Item>) -> Option<&'a Item>
    ensures { option_map (λ item. item.now) result
        ≡ later (option_map (λ item. item.now) first.entry)
        (option_map (λ item. item.now) second.entry) }
{
    match second {
        Some(item) => Some(item),
        None => first,
    }
}

// The Step that the entry sends to this simulator, if it is one.
fn step_to(entry: &Entry, sim: usize) -> Option<&Item>
    ensures { option_map (λ item. item.now) result ≡ step_to sim entry.now }
{
    match entry {
        Entry::Sent(number, item) => {
            if number.0 as usize == sim && steps_in(item) > 0 {
                Some(item)
            } else {
                None
            }
        }
        Entry::Got(_, _) => None,
    }
}
