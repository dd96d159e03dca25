//! The earliest of the Steps of all simulators, found without looking at each.
ghost use Rattle.std.specs.Prelude.{◌≡◌, ◌<◌, IfOk, None, length, replicate, slice_set};
ghost use Rattle.mk_pace_held.specs.inner.Minima.{IsLeast};

use crate::held::{First, earlier_of};
use mk_base::Mem;
use std::alloc::Global;
use std::marker::Model;

// A tree of minima, in one row: node 1 is the root, the children of node i are 2i and 2i + 1, and the last half of the
// nodes are the leaves. Each inner node is the earlier of its children.
#[derive(Drop)]
pub struct Tree {
    nodes: Vec<Option<First>>,
    leaves: usize,
}

impl Model for Tree {
    ghost use Rattle.std.specs.Prelude.{List, Option, drop};
    ghost use Rattle.mk_pace_held.specs.declared.held.First.{First};
    ghost use Rattle.mk_pace_held.specs.inner.Minima.{IsTree};

    ghost Value = { List (Option First) };

    ghost view = { λ a. drop a.leaves a.nodes.items };

    ghost invariant = { λ a. IsTree a.leaves a.nodes.items };
}

impl Tree {
    // A tree with so many leaves, at which nothing stands.
    pub fn new(alloc: Global, leaves: u32) -> Result<Tree, Mem>
        ensures { IfOk result (λ tree. tree ≡ replicate leaves None) }
    {
        let leaves = leaves as usize;
        let nodes = vec![in alloc; None; 2 * leaves]?;
        Ok(Tree { nodes, leaves })
    }

    // What is to be sent first of all that stands at the leaves.
    pub fn root(&self) -> Option<First>
        ensures { IsLeast result self.now }
    {
        if self.leaves == 0 {
            return None;
        }
        self.nodes[1]
    }

    // Sets what stands at a leaf.
    pub fn set(&mut self, leaf: usize, first: Option<First>)
        requires { leaf < length self.old }
        ensures { self.new ≡ slice_set self.old leaf first }
    {
        let mut at = self.leaves + leaf;
        self.nodes[at] = first;
        while 1 < at {
            at /= 2;
            self.nodes[at] = earlier_of(self.nodes[2 * at], self.nodes[2 * at + 1]);
        }
    }
}
