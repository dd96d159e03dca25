//! The index of a journal: where each simulator's entries stand.
ghost use Rattle.std.specs.Prelude.{◌≡◌, ℕ, ◌+◌, ◌<◌, List, [], ◌∷◌, ◌++◌, length, take, IfOk, OnOk, OnErr};
ghost use Rattle.mk_base.specs.Lists.{BeginsWith};
ghost use Rattle.mk_plan.specs.declared.Entry.{Entry};
ghost use Rattle.mk_plan.specs.Journals.{sim_of};
ghost use Rattle.mk_resume_walk.specs.Index.{IsIndexOf, IsIndexOfPart, own_count};
ghost use Rattle.mk_resume_walk.specs.Walks.{IsFirstOwn};

use mk_base::{Mem, SimNo};
use mk_plan::Entry;
use std::alloc::Global;
use std::marker::Model;

/// An index of a journal, which may grow: the places of each simulator's entries. By it the entries
/// of all simulators, each simulator's by themselves, are gone through in as many steps as there are
/// entries.
#[derive(Drop)]
pub struct Index {
    own: Vec<Vec<usize>>,
    count: usize,
}

impl Model for Index {
    ghost use Rattle.std.specs.Prelude.{map};
    ghost use Rattle.mk_resume_walk.specs.Index.{Indexed};

    ghost Value = { Indexed };

    ghost view = { λ a. record { own = map (λ v. v.items) a.own.items; count = a.count } };
}

impl Index {
    /// The index of a journal without entries, for so many simulators. `Mem` is want of memory.
    pub fn new(alloc: Global, sims: usize) -> Result<Index, Mem>
        ensures sims { IfOk result (λ index. length index.own ≡ sims) }
        ensures none { IfOk result (λ index. IsIndexOf [] index) }
    {
        let mut own = Vec::with_capacity(alloc, sims)?;
        while own.len() < sims {
            own.push(Vec::new(alloc))?;
        }
        Ok(Index { own, count: 0 })
    }

    /// Adds the entries that the journal has got behind those of the index; at want of memory the
    /// first of them, or none.
    pub fn grow(&mut self, entries: &[Entry]) -> Result<(), Mem>
        ensures sims { length self.new.own ≡ length self.old.own }
        ensures grown { (J : List Entry) → BeginsWith entries.now J → IsIndexOf J self.old
            → OnOk result (IsIndexOf entries.now self.new) }
        ensures part { (J : List Entry) → BeginsWith entries.now J → IsIndexOf J self.old
            → IsIndexOfPart J entries.now self.new }
    {
        while self.count < entries.len() {
            self.note(&entries[self.count])?;
        }
        Ok(())
    }

    // Adds one entry. At want of memory nothing changes.
    fn note(&mut self, entry: &Entry) -> Result<(), Mem>
        requires { self.old.count < usize.MAX }
        ensures sims { length self.new.own ≡ length self.old.own }
        ensures count { OnOk result (self.new.count ≡ self.old.count + 1) }
        ensures noted { (J : List Entry) → IsIndexOf J self.old
            → OnOk result (IsIndexOf (J ++ entry.now ∷ []) self.new) }
        ensures unnoted { OnErr result (self.new ≡ self.old) }
    {
        let sim = sim_of(entry);
        if sim < self.own.len() {
            self.own[sim].push(self.count)?;
        }
        self.count += 1;
        Ok(())
    }

    /// The place in the journal, from 0, of the simulator's next entry, where so many of its entries
    /// were gone through; `None` exactly where there are no more. It takes no memory.
    pub fn next(&self, sim: SimNo, gone: usize) -> Option<usize>
        requires { sim.0 < length self.now.own }
        ensures { (J : List Entry) → (from : ℕ) → IsIndexOf J self.now
            → gone ≡ own_count sim.0 (take from J) → IsFirstOwn J sim.0 from result }
    {
        self.own[sim.0 as usize].get(gone).copied()
    }
}

// The simulator of an entry.
fn sim_of(entry: &Entry) -> usize
    ensures { result ≡ sim_of entry.now }
{
    match entry {
        Entry::Sent(to, _) => to.0 as usize,
        Entry::Got(from, _) => from.0 as usize,
    }
}
