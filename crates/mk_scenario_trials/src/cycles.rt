//! Ranks and cycles of small graphs.
ghost use Rattle.std.specs.Prelude.{◌≡◌, IfOk, OnOk};
ghost use Rattle.mk_cycles.specs.Edges.{EndsBelow, edge};

use mk_base::{Mem, SimNo};
use mk_cycles::{CycleFault, Edge, ranks};
use std::alloc::Global;

fn edge(from: u32, to: u32) -> Edge
    ensures { result ≡ edge from to }
{
    Edge {
        from: SimNo(from),
        to: SimNo(to),
    }
}

// Adds an edge of so many simulators.
fn push_edge(edges: &mut Vec<Edge>, sims: u32, from: u32, to: u32) -> Result<(), Mem>
    requires { EndsBelow sims edges.old.items }
    ensures { OnOk result (EndsBelow sims edges.new.items) }
{
    if from >= sims || to >= sims {
        return Err(Mem);
    }
    edges.push(edge(from, to))?;
    Ok(())
}

fn edges_of(alloc: Global, sims: u32, pairs: &[(u32, u32)]) -> Result<Vec<Edge>, Mem>
    ensures { IfOk result (λ edges. EndsBelow sims edges.items) }
{
    let mut edges = Vec::new(alloc);
    for (from, to) in pairs {
        push_edge(&mut edges, sims, *from, *to)?;
    }
    Ok(edges)
}

// The ranks, or the cycle.
type Outcome = Result<&'static [u32], &'static [SimNo]>;

fn is_outcome(alloc: Global, sims: u32, edges: &[Edge], want: Outcome) -> bool
    requires { EndsBelow sims edges.now }
{
    match ranks(alloc, sims, edges) {
        Ok(ranks) => want == Ok(ranks.as_slice()),
        Err(CycleFault::Cycle(walk)) => want == Err(walk.as_slice()),
        Err(CycleFault::Mem) => false,
    }
}

// How many simulators there are, their edges, and what comes of them.
type Graph = (u32, &'static [(u32, u32)], Outcome);

fn has_outcome(alloc: Global, graph: &Graph) -> bool {
    match edges_of(alloc, graph.0, graph.1) {
        Ok(edges) => is_outcome(alloc, graph.0, edges.as_slice(), graph.2),
        Err(_) => false,
    }
}

const GRAPHS: [Graph; 7] = [
    // no edges
    (3, &[], Ok(&[0, 1, 2])),
    // a chain against the numbers
    (3, &[(2, 1), (1, 0)], Ok(&[2, 1, 0])),
    // a diamond
    (4, &[(3, 1), (3, 0), (1, 2), (0, 2)], Ok(&[1, 2, 3, 0])),
    // an edge given four times
    (3, &[(2, 0), (2, 0), (2, 0), (2, 0)], Ok(&[2, 0, 1])),
    // an edge to itself
    (1, &[(0, 0)], Err(&[SimNo(0)])),
    // two in a cycle
    (2, &[(0, 1), (1, 0)], Err(&[SimNo(0), SimNo(1)])),
    // the cycle behind the least one left is named
    (
        7,
        &[
            (0, 1),
            (3, 4),
            (4, 3),
            (2, 6),
            (6, 5),
            (5, 2),
            (6, 1),
            (2, 3),
        ],
        Err(&[SimNo(2), SimNo(6), SimNo(5)]),
    ),
];

// How many graphs have their outcome, up to the first that hasn't.
fn count_graphs(alloc: Global) -> usize {
    for (place, graph) in GRAPHS.iter().enumerate() {
        if !has_outcome(alloc, graph) {
            return place;
        }
    }
    GRAPHS.len()
}

#[test]
fn ranks_and_cycles_of_small_graphs(rt: HostRuntime) {
    assert_eq!(rt; count_graphs(rt.alloc()), GRAPHS.len());
}
