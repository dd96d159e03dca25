//! Numbers in the order in which they were listed, each at most once.
ghost use Rattle.std.specs.Prelude.{◌≡◌, ℕ, ◌<◌, ◌≤◌, ◌↔◌, ◌++◌, ◌∷◌, [], length, slice_get, Some, IsTrue, IfOk, OnOk, OnErr, MatchOption};
ghost use Rattle.mk_base.specs.Lists.{IsIn};
ghost use Rattle.mk_cycles.specs.Cycles.{IsUnplaced};

use mk_base::Mem;
use std::alloc::Global;
use std::marker::Model;

// Numbers below a count, each at most once, in the order in which they came.
#[derive(Drop)]
pub struct Listed {
    order: Vec<usize>,
    marks: Vec<bool>,
}

impl Model for Listed {
    ghost use Rattle.std.specs.Prelude.{length};
    ghost use Rattle.mk_cycles.specs.inner.Listing.{Listing, MarksListed};

    ghost Value = { Listing };

    ghost view = { λ a. record { count = length a.marks.items; order = a.order.items } };

    ghost invariant = { λ a. MarksListed a.marks.items a.order.items };
}

impl Listed {
    pub fn new(alloc: Global, count: usize) -> Result<Listed, Mem>
        ensures { IfOk result (λ listed. listed ≡ record { count = count; order = [] }) }
    {
        let marks = vec![in alloc; false; count]?;
        Ok(Listed {
            order: Vec::new(alloc),
            marks,
        })
    }

    pub fn count(&self) -> usize
        ensures { result ≡ self.now.count }
    {
        self.marks.len()
    }

    // The numbers in their order.
    pub fn order(&self) -> &[usize]
        ensures order { result.now ≡ self.now.order }
        ensures apart { (i j s : ℕ) → slice_get self.now.order i ≡ Some s
            → slice_get self.now.order j ≡ Some s → i ≡ j }
        ensures below { (s : ℕ) → IsIn s self.now.order → s < self.now.count }
    {
        self.order.as_slice()
    }

    pub fn has(&self, number: usize) -> bool
        requires { number < self.now.count }
        ensures { IsTrue result ↔ IsIn number self.now.order }
    {
        self.marks[number]
    }

    pub fn push(&mut self, number: usize) -> Result<(), Mem>
        requires below { number < self.old.count }
        requires new { IsIn number self.old.order → ⊥ }
        ensures ok { OnOk result (self.new
            ≡ record { count = self.old.count; order = self.old.order ++ number ∷ [] }) }
        ensures room { OnOk result (length self.old.order < self.old.count) }
        ensures err { OnErr result (self.new ≡ self.old) }
    {
        self.order.push(number)?;
        self.marks[number] = true;
        Ok(())
    }

    // The least number that is not listed.
    pub fn first_left(&self) -> Option<usize>
        ensures left { MatchOption result ((s : ℕ) → s < self.now.count
            → IsIn s self.now.order) (λ s. IsUnplaced self.now.count self.now.order s) }
        ensures first { MatchOption result (length self.now.order ≡ self.now.count) (λ s. (t : ℕ)
            → IsUnplaced self.now.count self.now.order t → s ≤ t) }
    {
        for number in 0..self.marks.len() {
            if !self.marks[number] {
                return Some(number);
            }
        }
        None
    }
}
