//! Which simulator leads to which, as a table.
ghost use Rattle.std.specs.Prelude.{◌≡◌, ◌<◌, ◌*◌, ◌^◌, IfOk};
ghost use Rattle.mk_cycles.specs.Edges.{EndsBelow, has_edge};
ghost use Rattle.mk_cycles.specs.inner.Tables.{leads};

use crate::ranking::Edge;
use mk_base::Mem;
use std::alloc::Global;
use std::marker::Model;

// Between which simulators there are edges: row by row for each simulator those that lead to it.
#[derive(Drop)]
pub struct Table {
    sims: usize,
    set: Vec<bool>,
}

impl Model for Table {
    ghost use Rattle.mk_cycles.specs.inner.Tables.{IsSquare, Rows};

    ghost Value = { Rows };

    ghost view = { λ a. record { sims = a.sims; set = a.set.items } };

    ghost invariant = { λ a. IsSquare a.sims a.set.items };
}

impl Table {
    pub fn new(alloc: Global, sims: u32, edges: &[Edge]) -> Result<Table, Mem>
        requires { EndsBelow sims edges.now }
        ensures sims { IfOk result (λ table. table.sims ≡ sims) }
        ensures edges { IfOk result (λ table. leads table ≡ has_edge edges.now) }
    {
        let sims = sims as usize;
        let mut set = vec![in alloc; false; sims * sims]?;
        for edge in edges {
            set[edge.to.0 as usize * sims + edge.from.0 as usize] = true;
        }
        Ok(Table { sims, set })
    }

    // How many simulators there are.
    pub fn sims(&self) -> usize
        ensures sims { result ≡ self.now.sims }
        ensures small { result < 2 ^ 32 }
    {
        self.sims
    }

    // Whether an edge leads from the one to the other.
    pub fn leads(&self, from: usize, to: usize) -> bool
        requires from_below { from < self.now.sims }
        requires to_below { to < self.now.sims }
        ensures { result ≡ leads self.now from to }
    {
        self.set[to * self.sims + from]
    }
}
