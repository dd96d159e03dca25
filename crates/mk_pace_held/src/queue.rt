//! What waits of one simulator.
ghost use Rattle.std.specs.Prelude.{◌≡◌, List, [], ◌∷◌, ◌++◌, MatchOption, OnOk, OnErr};
ghost use Rattle.mk_pace_held.specs.declared.held.Held.{Held};

use crate::held::Held;
use mk_base::Mem;
use std::alloc::Global;
use std::collections::VecDeque;
use std::marker::Model;

// The items of a simulator that wait, in the order in which they were asked for.
#[derive(Drop)]
pub struct Queue {
    kept: VecDeque<Held>,
}

impl Model for Queue {
    ghost use Rattle.std.specs.Prelude.{List};
    ghost use Rattle.mk_pace_held.specs.declared.held.Held.{Held};

    ghost Value = { List Held };

    ghost view = { λ a. a.kept.items };
}

impl Queue {
    pub fn new(alloc: Global) -> Queue
        ensures { result ≡ [] }
    {
        Queue {
            kept: VecDeque::new(alloc),
        }
    }

    // Puts an item behind all others. At want of memory nothing changes.
    pub fn push(&mut self, held: Held) -> Result<(), Mem>
        ensures ok { OnOk result (self.new ≡ self.old ++ held ∷ []) }
        ensures err { OnErr result (self.new ≡ self.old) }
    {
        self.kept.push_back(held)?;
        Ok(())
    }

    // Takes the first item; `None` exactly where there is none.
    pub fn pop(&mut self) -> Option<Held>
        ensures { MatchOption result ((self.old ≡ [])
            × (self.new ≡ [])) (λ h. self.old ≡ h ∷ self.new) }
    {
        self.kept.pop_front()
    }

    // The first item; `None` exactly where there is none.
    pub fn front(&self) -> Option<Held>
        ensures { MatchOption result (self.now ≡ []) (λ h. (rest : List Held)
            × (self.now ≡ h ∷ rest)) }
    {
        match self.kept.front() {
            Some(held) => Some(*held),
            None => None,
        }
    }
}
