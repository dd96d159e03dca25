//! How far each simulator is behind what a journal has of it.
ghost use Rattle.std.specs.Prelude.{◌≡◌, ◌<◌, ℕ, length, take, IfOk, List, OnOk, None, Some, Option, [], true, false, is_some, slice_get, slice_set};
ghost use Rattle.std.specs.List.{list_any};
ghost use Rattle.mk_base.specs.Lists.{BeginsWith};
ghost use Rattle.mk_plan.specs.declared.Entry.{Entry};
ghost use Rattle.mk_resume_walk.specs.Index.{IsIndexOf, own_count};
ghost use Rattle.mk_resume_walk.specs.Walks.{IsFirstOwn};
ghost use Rattle.mk_resume_loop.specs.declared.behind.Standing.{Standing};

use mk_base::{Mem, SimNo};
use mk_plan::Entry;
use mk_resume_walk::Index;
use std::alloc::Global;
use std::marker::Model;

/// Where a simulator stands that is behind: the place in the journal of the message that it has to
/// send again next, how many of its entries stand up to and with that one, and the id of its next
/// request.
#[derive(Drop, Clone, Copy)]
pub struct Standing {
    pub place: usize,
    pub gone: usize,
    pub id: u64,
}

/// Where each simulator stands; `None` is one that has caught up. And an index of the journal.
#[derive(Drop)]
pub struct Behind {
    index: Index,
    sims: Vec<Option<Standing>>,
}

impl Model for Behind {
    ghost use Rattle.mk_resume_loop.specs.inner.Underway.{BehindSeen};

    ghost Value = { BehindSeen };

    ghost view = { λ a. record { index = a.index; sims = a.sims.items } };
}

impl Behind {
    /// All have caught up with a journal without entries.
    pub fn new(alloc: Global, sims: usize) -> Result<Behind, Mem>
        ensures sims { IfOk result (λ behind. length behind.sims ≡ sims) }
        ensures own { IfOk result (λ behind. length behind.index.own ≡ sims) }
        ensures indexed { IfOk result (λ behind. IsIndexOf [] behind.index) }
    {
        let index = Index::new(alloc, sims)?;
        let mut standings = Vec::with_capacity(alloc, sims)?;
        while standings.len() < sims {
            standings.push(None)?;
        }
        Ok(Behind {
            index,
            sims: standings,
        })
    }

    /// Adds the entries that the journal has got behind those of the index. After an `Err` the first
    /// of them may have been added.
    pub fn grow(&mut self, entries: &[Entry]) -> Result<(), Mem>
        ensures sims { self.new.sims ≡ self.old.sims }
        ensures own { length self.new.index.own ≡ length self.old.index.own }
        ensures grown { (J : List Entry) → BeginsWith entries.now J → IsIndexOf J self.old.index
            → OnOk result (IsIndexOf entries.now self.new.index) }
    {
        self.index.grow(entries)
    }

    /// The place of the simulator's next entry behind so many of its entries; `None` where it has no
    /// more.
    pub fn next(&self, sim: SimNo, gone: usize) -> Option<usize>
        requires { sim.0 < length self.now.index.own }
        ensures { (J : List Entry) → (from : ℕ) → IsIndexOf J self.now.index
            → gone ≡ own_count sim.0 (take from J) → IsFirstOwn J sim.0 from result }
    {
        self.index.next(sim, gone)
    }

    /// Where the simulator stands; `None` where it has caught up.
    pub fn standing(&self, sim: SimNo) -> Option<Standing>
        requires { sim.0 < length self.now.sims }
        ensures { slice_get self.now.sims sim.0 ≡ Some result }
    {
        self.sims[sim.0 as usize]
    }

    /// The simulator stands there now.
    pub fn set(&mut self, sim: SimNo, standing: Option<Standing>)
        requires { sim.0 < length self.old.sims }
        ensures sims { self.new.sims ≡ slice_set self.old.sims sim.0 standing }
        ensures index { self.new.index ≡ self.old.index }
    {
        self.sims[sim.0 as usize] = standing;
    }

    /// Somebody is behind.
    pub fn is_anybody(&self) -> bool
        ensures all { result ≡ false → (i : ℕ) → (o : Option Standing)
            → slice_get self.now.sims i ≡ Some o → o ≡ None }
        ensures some { result ≡ true → (i : ℕ) × (c : Standing)
            × (slice_get self.now.sims i ≡ Some (Some c)) }
    {
        some_behind(self.sims.as_slice())
    }
}

// One of these simulators is behind.
fn some_behind(sims: &[Option<Standing>]) -> bool
    ensures { result ≡ list_any (λ o. is_some o) sims.now }
{
    sims.iter().any(|standing| standing.is_some())
}
