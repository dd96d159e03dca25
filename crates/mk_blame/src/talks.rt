//! The entries of each simulator.
ghost use Rattle.std.specs.Prelude.{◌≡◌, ◌++◌, ◌∷◌, [], ℕ, List, map, IfOk, OnOk};
ghost use Rattle.mk_plan.specs.declared.Entry.{Entry};
ghost use Rattle.mk_plan.specs.Journals.{sim_of};
ghost use Rattle.mk_blame.specs.inner.Parted.{AreTalks};

use mk_base::Mem;
use mk_plan::Entry;
use std::alloc::Global;

/// The entries of each of so many simulators, in order.
pub fn talks_of<'a>(
    alloc: Global,
    count: usize,
    entries: &'a [Entry],
) -> Result<Vec<Vec<&'a Entry>>, Mem>
    ensures { IfOk result
        (λ talks. AreTalks count entries.now (map (λ t. map (λ e. e.now) t.items) talks.items)) }
{
    let mut talks = empty_talks(alloc, count)?;
    for entry in entries {
        note(&mut talks, entry)?;
    }
    Ok(talks)
}

// Talks of nothing.
fn empty_talks<'a>(alloc: Global, count: usize) -> Result<Vec<Vec<&'a Entry>>, Mem>
    ensures { IfOk result
        (λ talks. AreTalks count [] (map (λ t. map (λ e. e.now) t.items) talks.items)) }
{
    let mut talks = Vec::new(alloc);
    for _ in 0..count {
        talks.push(Vec::new(alloc))?;
    }
    Ok(talks)
}

// The talks after one more entry.
fn note<'a>(talks: &mut Vec<Vec<&'a Entry>>, entry: &'a Entry) -> Result<(), Mem>
    ensures { (count : ℕ) → (J : List Entry)
        → AreTalks count J (map (λ t. map (λ e. e.now) t.items) talks.old.items)
        → OnOk result (AreTalks count (J ++ entry.now ∷ [])
        (map (λ t. map (λ e. e.now) t.items) talks.new.items)) }
{
    let place = place_of(entry);
    if place < talks.as_slice().len() {
        talks[place].push(entry)?;
    }
    Ok(())
}

// The simulator of an entry.
fn place_of(entry: &Entry) -> usize
    ensures { result ≡ sim_of entry.now }
{
    match entry {
        Entry::Sent(sim, _) => sim.0 as usize,
        Entry::Got(sim, _) => sim.0 as usize,
    }
}
