//! What each simulator was sent in a journal.
ghost use Rattle.std.specs.Prelude.{◌++◌, ◌∷◌, [], ℕ, List, map, IfOk, OnOk};
ghost use Rattle.mk_plan.specs.declared.Entry.{Entry};
ghost use Rattle.mk_plan.specs.declared.Entry.TheVariants as entry;
ghost use Rattle.mk_watch.specs.inner.Shares.{AreShares};

use mk_base::{Mem, SimNo};
use mk_plan::{Entry, Item};
use std::alloc::Global;

// The items that each of so many simulators was sent, in order. The entries are gone through once.
pub fn shares_of<'a>(
    alloc: Global,
    count: usize,
    entries: &'a [Entry],
) -> Result<Vec<Vec<&'a Item>>, Mem>
    ensures { IfOk result (λ shares. AreShares count entries.now
        (map (λ s. map (λ x. x.now) s.items) shares.items)) }
{
    let mut shares = empty_shares(alloc, count)?;
    for entry in entries {
        note(&mut shares, entry)?;
    }
    Ok(shares)
}

// Shares of nothing.
fn empty_shares<'a>(alloc: Global, count: usize) -> Result<Vec<Vec<&'a Item>>, Mem>
    ensures { IfOk result (λ shares. AreShares count []
        (map (λ s. map (λ x. x.now) s.items) shares.items)) }
{
    let mut shares = Vec::new(alloc);
    for _ in 0..count {
        shares.push(Vec::new(alloc))?;
    }
    Ok(shares)
}

// The shares after one more entry.
fn note<'a>(shares: &mut Vec<Vec<&'a Item>>, entry: &'a Entry) -> Result<(), Mem>
    ensures { (count : ℕ) → (J : List Entry)
        → AreShares count J (map (λ s. map (λ x. x.now) s.items) shares.old.items)
        → OnOk result (AreShares count (J ++ entry.now ∷ [])
        (map (λ s. map (λ x. x.now) s.items) shares.new.items)) }
{
    match entry {
        Entry::Sent(sim, item) => note_item(shares, *sim, item),
        Entry::Got(_, _) => Ok(()),
    }
}

// The shares after one more item.
fn note_item<'a>(shares: &mut Vec<Vec<&'a Item>>, sim: SimNo, item: &'a Item) -> Result<(), Mem>
    ensures { (count : ℕ) → (J : List Entry)
        → AreShares count J (map (λ s. map (λ x. x.now) s.items) shares.old.items)
        → OnOk result (AreShares count (J ++ entry.Sent sim item.now ∷ [])
        (map (λ s. map (λ x. x.now) s.items) shares.new.items)) }
{
    let place = sim.0 as usize;
    if place < shares.len() {
        shares[place].push(item)?;
    }
    Ok(())
}
