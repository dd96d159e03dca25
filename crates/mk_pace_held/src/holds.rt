//! What waits of all simulators.
ghost use Rattle.std.specs.Prelude.{◌≡◌, ℕ, ◌<◌, List, [], ◌∷◌, ◌++◌, length, replicate, is_some, Some, None, IfOk, IfSome, MatchOption, OnOk, OnErr, slice_get};
ghost use Rattle.mk_pace_held.specs.declared.held.Held.{Held};
ghost use Rattle.mk_pace_held.specs.declared.held.First.{First};
ghost use Rattle.mk_pace_held.specs.Firsts.{IsChanged, IsFirst, first_at};

use crate::held::{First, Held};
use crate::queue::Queue;
use crate::tree::Tree;
use mk_base::{Mem, SimNo};
use std::alloc::Global;
use std::marker::Model;

/// For each simulator what waits of its items, in the order in which they were asked for.
#[derive(Drop)]
pub struct Holds {
    queues: Vec<Queue>,
    // at the leaf of each simulator the Step that its items begin with, if they do
    firsts: Tree,
}

impl Model for Holds {
    ghost use Rattle.std.specs.Prelude.{List};
    ghost use Rattle.mk_pace_held.specs.declared.held.Held.{Held};
    ghost use Rattle.mk_pace_held.specs.inner.Minima.{AreFirsts};

    ghost Value = { List (List Held) };

    ghost view = { λ a. a.queues.items };

    ghost invariant = { λ a. AreFirsts a.firsts a.queues.items };
}

// The Step that a simulator's items begin with, if they do.
fn first_of(sim: SimNo, queue: &Queue) -> Option<First>
    ensures { result ≡ first_at sim queue.now }
{
    let held = queue.front()?;
    let due = held.due?;
    Some(First {
        sim,
        place: held.place,
        due,
    })
}

impl Holds {
    /// Nothing waits of any of so many simulators.
    pub fn new(alloc: Global, sims: u32) -> Result<Holds, Mem>
        ensures { IfOk result (λ holds. holds ≡ replicate sims []) }
    {
        let mut queues = Vec::new(alloc);
        for _sim in 0..sims {
            queues.push(Queue::new(alloc))?;
        }
        let firsts = Tree::new(alloc, sims)?;
        Ok(Holds { queues, firsts })
    }

    /// Whether something waits of a simulator.
    pub fn is_held(&self, sim: SimNo) -> bool
        requires { sim.0 < length self.now }
        ensures { (q : List Held) × (slice_get self.now sim.0 ≡ Some q)
            × (result ≡ is_some (slice_get q 0)) }
    {
        self.queues[sim.0 as usize].front().is_some()
    }

    /// The first item that waits of a simulator; `None` exactly where nothing does.
    pub fn front(&self, sim: SimNo) -> Option<Held>
        requires { sim.0 < length self.now }
        ensures { (q : List Held) × (slice_get self.now sim.0 ≡ Some q)
            × (result ≡ slice_get q 0) }
    {
        self.queues[sim.0 as usize].front()
    }

    /// Lets an item wait behind all others of its simulator. At want of memory nothing changes.
    pub fn hold(&mut self, sim: SimNo, held: Held) -> Result<(), Mem>
        requires { sim.0 < length self.old }
        ensures ok { OnOk result ((q : List Held)
            × IsChanged sim.0 q (q ++ held ∷ []) self.old self.new) }
        ensures err { OnErr result (self.new ≡ self.old) }
    {
        let at = sim.0 as usize;
        let was_empty = self.queues[at].front().is_none();
        self.queues[at].push(held)?;
        if was_empty {
            self.firsts.set(at, first_of(sim, &self.queues[at]));
        }
        Ok(())
    }

    /// The Step that is to be sent next: of those before which nothing waits of their simulators, the one with the
    /// least moment, and of these the one that was asked for first. `None` exactly where there is none.
    pub fn first(&self) -> Option<First>
        ensures some { IfSome result (λ f. IsFirst f self.now) }
        ensures none { result ≡ None → (i : ℕ) (q : List Held) → slice_get self.now i ≡ Some q
            → first_at (record { 0 = i }) q ≡ None }
    {
        self.firsts.root()
    }

    /// Takes the first item that waits of a simulator; `None` exactly where nothing does.
    pub fn take(&mut self, sim: SimNo) -> Option<Held>
        requires { sim.0 < length self.old }
        ensures { MatchOption result ((slice_get self.old sim.0 ≡ Some [])
            × (self.new ≡ self.old)) (λ h. (q : List Held)
            × IsChanged sim.0 (h ∷ q) q self.old self.new) }
    {
        let at = sim.0 as usize;
        let taken = self.queues[at].pop();
        self.firsts.set(at, first_of(sim, &self.queues[at]));
        taken
    }
}
