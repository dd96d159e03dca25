//! Whose turn is open.
ghost use Rattle.std.specs.Prelude.{◌≡◌, ◌<◌, ◌++◌, ◌∷◌, [], false, true, length, slice_index_or, slice_set, OnOk, OnErr};
ghost use Rattle.std.specs.List.{list_any};

use mk_base::Mem;
use std::alloc::Global;
use std::marker::Model;

/// Whether the turn of each simulator is open, and how many turns are.
#[derive(Drop)]
pub struct OpenTurns {
    flags: Vec<bool>,
    count: usize,
}

impl Model for OpenTurns {
    ghost use Rattle.std.specs.Prelude.{◌≡◌, List, Bool};
    ghost use Rattle.mk_sched_agenda.specs.inner.Counts.{open_among};

    ghost Value = { List Bool };

    ghost view = { λ t. t.flags.items };

    ghost invariant = { λ t. t.count ≡ open_among t.flags.items };
}

impl OpenTurns {
    /// Those of no simulator.
    pub fn new(alloc: Global) -> OpenTurns
        ensures { result ≡ [] }
    {
        OpenTurns {
            flags: Vec::new(alloc),
            count: 0,
        }
    }

    /// Adds a simulator whose turn isn't open. At want of memory nothing changes.
    pub fn push(&mut self) -> Result<(), Mem>
        ensures ok { OnOk result (self.new ≡ self.old ++ false ∷ []) }
        ensures err { OnErr result (self.new ≡ self.old) }
    {
        self.flags.push(false)?;
        Ok(())
    }

    /// Whether the turn of a simulator is open.
    pub fn is_open(&self, sim: usize) -> bool
        requires { sim < length self.now }
        ensures { result ≡ slice_index_or self.now sim false }
    {
        self.flags[sim]
    }

    /// Whether some turn is open.
    pub fn is_any_open(&self) -> bool
        ensures { result ≡ list_any (λ b. b) self.now }
    {
        self.count > 0
    }

    /// The turn of a simulator opens.
    pub fn open(&mut self, sim: usize)
        requires { sim < length self.old }
        ensures { self.new ≡ slice_set self.old sim true }
    {
        if !self.flags[sim] {
            self.flags[sim] = true;
            self.count += 1;
        }
    }

    /// The turn of a simulator closes.
    pub fn close(&mut self, sim: usize)
        requires { sim < length self.old }
        ensures { self.new ≡ slice_set self.old sim false }
    {
        if self.flags[sim] {
            self.flags[sim] = false;
            self.count -= 1;
        }
    }
}
