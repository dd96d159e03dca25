//! The eids of one simulator, and the number of each.
ghost use Rattle.std.specs.Prelude.{◌≡◌, ℕ, ◌<◌, ◌++◌, [], ◌∷◌, None, length, take, OnOk, OnErr};
ghost use Rattle.mk_base.specs.Lists.{value_under};
ghost use Rattle.mk_entities.specs.inner.Tied.{names_at};

use indexmap::IndexMap;
use mk_base::{Mem, Text};
use std::alloc::Global;
use std::marker::Model;

// The eids of a simulator's entities with their numbers, in order of creation.
#[derive(Drop)]
pub struct Names {
    kept: IndexMap<String, u32>,
}

impl Model for Names {
    ghost use Rattle.std.specs.Prelude.{List, ℕ};
    ghost use Rattle.std.specs.Coded.{coded_list, coded×, coded_ℕ};
    ghost use Rattle.mk_entities.specs.inner.Names.{texts_of};

    ghost Value = { List (List ℕ × ℕ) };

    ghost coded = { coded_list (coded× (coded_list coded_ℕ) coded_ℕ) };

    ghost view = { λ a. texts_of a.kept.entries };
}

impl Names {
    pub fn new(alloc: Global) -> Names
        ensures { result ≡ [] }
    {
        Names {
            kept: IndexMap::new(alloc),
        }
    }

    pub fn len(&self) -> usize
        ensures { result ≡ length self.now }
    {
        self.kept.len()
    }

    // The number of this eid.
    pub fn get(&self, eid: &str) -> Option<u32>
        ensures { result ≡ value_under eid.now self.now }
    {
        self.kept.get(eid).copied()
    }

    // Puts an eid that isn't there last.
    pub fn put(&mut self, alloc: Global, eid: &Text, number: u32) -> Result<(), Mem>
        requires { value_under eid.now self.old ≡ None }
        ensures ok { OnOk result (self.new ≡ self.old ++ (eid.now, number) ∷ []) }
        ensures err { OnErr result (self.new ≡ self.old) }
    {
        let key = String::from_str(alloc, eid.as_str())?;
        self.kept.insert(key, number)?;
        Ok(())
    }

    // Takes off all but the first so many.
    pub fn truncate(&mut self, count: usize)
        ensures { self.new ≡ take count self.old }
    {
        self.kept.truncate(count);
    }
}

// Makes room for the names of the simulator at this place.
pub fn grow(alloc: Global, names: &mut Vec<Names>, place: usize) -> Result<(), Mem>
    ensures same { (s : ℕ) → names_at names.new.items s ≡ names_at names.old.items s }
    ensures room { OnOk result (place < length names.new.items) }
{
    while names.len() <= place {
        names.push(Names::new(alloc))?;
    }
    Ok(())
}
