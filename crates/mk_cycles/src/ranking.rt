//! Ranks along edges, or a cycle: the crate's call.
ghost use Rattle.std.specs.Prelude.{◌≡◌, IfOk, IfErr};
ghost use Rattle.mk_cycles.specs.Edges.{EndsBelow, has_edge};
ghost use Rattle.mk_cycles.specs.Orders.{IsRanking};
ghost use Rattle.mk_cycles.specs.Outcomes.{ClosedWalkOf, CycleOf, IsEachOnce, IsRising};

use crate::back::cycle;
use crate::places::{places, ranks_by_place};
use crate::table::Table;
use mk_base::{List, Mem, SimNo};
use std::alloc::Global;
use std::fmt;
use thiserror::Error;

/// An edge: `to` has its rank after `from`.
#[derive(Clone, Copy, Debug, PartialEq, Eq)]
pub struct Edge {
    pub from: SimNo,
    pub to: SimNo,
}

/// Why there are no ranks. `Cycle` has the simulators of a closed walk along the edges; `Mem` is want of memory.
#[derive(Drop, Error)]
pub enum CycleFault {
    #[error("a cycle")]
    Cycle(List<SimNo>),
    #[error("out of memory")]
    Mem,
}

impl fmt::Debug for CycleFault {
    fn fmt<W: fmt::Write>(&self, f: &mut fmt::Formatter<W>) -> fmt::Result {
        match self {
            CycleFault::Cycle(_) => write!(f, "Cycle"),
            CycleFault::Mem => write!(f, "Mem"),
        }
    }
}

impl From<Mem> for CycleFault {
    ghost use Rattle.mk_cycles.specs.declared.ranking.CycleFault.TheVariants as fault;

    ghost from_gives = { λ _ e. e ≡ fault.Mem };

    fn from(_e: Mem) -> CycleFault {
        CycleFault::Mem
    }
}

/// The rank of each simulator: again and again the least-numbered simulator to which no simulator
/// without a rank leads gets the next rank, from 0.
///
/// Where simulators are left there is a cycle. It is found by going back from the least-numbered
/// one left, each time to the least-numbered one left that leads to it, until one comes up again:
/// this loop, in the edges' direction and from its least number, is named.
pub fn ranks(alloc: Global, sims: u32, edges: &[Edge]) -> Result<List<u32>, CycleFault>
    requires { EndsBelow sims edges.now }

    // The ranks are those that the rule gives, so they are the numbers below the count, each once, and rise along the
    // edges.
    ensures ranking { IfOk result (λ ranks. IsRanking (has_edge edges.now) sims ranks) }
    ensures each_once { IfOk result (λ ranks. IsEachOnce sims ranks) }
    ensures rising { IfOk result (λ ranks. IsRising edges.now ranks) }

    // The cycle is the one that going back finds among those left, so it is a closed walk of edges.
    ensures cycle { IfErr result (λ fault. CycleOf edges.now sims fault) }
    ensures closed { IfErr result (λ fault. ClosedWalkOf edges.now fault) }
{
    let table = Table::new(alloc, sims, edges)?;
    let placed = places(alloc, &table)?;
    match placed.first_left() {
        None => {
            let ranks = ranks_by_place(alloc, &placed)?;
            Ok(ranks)
        }
        Some(start) => {
            let walk = cycle(alloc, &table, &placed, start)?;
            Err(CycleFault::Cycle(walk))
        }
    }
}
