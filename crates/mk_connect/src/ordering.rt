//! Which simulators a scenario's connections put before which: what ranks rise along.
ghost use Rattle.std.specs.Prelude.{◌≡◌, ◌++◌, ◌||◌, ◌&&◌, ◌<◌, flat_map, length, IfOk, OnOk};
ghost use Rattle.mk_base.specs.Lists.{Each};
ghost use Rattle.mk_base.specs.Tiers.{is_plain};
ghost use Rattle.mk_cycles.specs.Edges.{EndsBelow};
ghost use Rattle.mk_scenario.specs.Wellformed.{IsWellformed};
ghost use Rattle.mk_connect_pairs.specs.Usable.{HasGroup, IsUsable};
ghost use Rattle.mk_connect.specs.Edges.{edges_in, edges_of, is_ordering, sim_at, sim_of_group};

use mk_base::{List, Mem, SimNo, Via};
use mk_cycles::Edge;
use mk_scenario::{Block, Group, Place, Scenario};
use std::alloc::Global;

/// One edge for each block that orders its simulators: a plain one that connects attributes, or an asynchronous one,
/// whose left side has to come first (mosaik 3, scenario definition). The edges stand in the order of their blocks.
/// Fails for want of memory alone.
pub fn edges(alloc: Global, scenario: &Scenario) -> Result<List<Edge>, Mem>
    requires { IsWellformed scenario.now }
    ensures edges { IfOk result (λ edges. edges ≡ edges_of scenario.now) }
    ensures below { IfOk result (λ edges. EndsBelow (length scenario.now.sims) edges) }
{
    let edges = edges_among(alloc, &scenario.groups, scenario.blocks.as_slice())?;
    Ok(edges)
}

// The edges of blocks between places of these groups.
fn edges_among(alloc: Global, groups: &List<Group>, blocks: &[Block]) -> Result<List<Edge>, Mem>
    requires { Each (IsUsable (length groups.now)) blocks.now }
    ensures { IfOk result (λ edges. edges ≡ flat_map (edges_in groups.now) blocks.now) }
{
    let mut edges = List::new(alloc);
    for block in blocks {
        put_edge(&mut edges, groups, block)?;
    }
    Ok(edges)
}

// Puts the edge of the block, if it orders its simulators.
fn put_edge(edges: &mut List<Edge>, groups: &List<Group>, block: &Block) -> Result<(), Mem>
    requires { IsUsable (length groups.now) block.now }
    ensures { OnOk result (edges.new ≡ edges.old ++ edges_in groups.now block.now) }
{
    if is_ordering(block) {
        edges.push(Edge {
            from: sim_at(groups, &block.from),
            to: sim_at(groups, &block.to),
        })?;
    }
    Ok(())
}

// Whether the block orders its simulators.
fn is_ordering(block: &Block) -> bool
    ensures { result ≡ is_ordering block.now }
{
    block.async_requests || (is_plain(block.via) && !block.attrs.is_empty())
}

fn is_plain(via: Via) -> bool
    ensures { result ≡ is_plain via }
{
    match via {
        Via::Plain => true,
        Via::Shift(_) | Via::Weak => false,
    }
}

// The simulator whose entities stand at this place.
pub fn sim_at(groups: &List<Group>, place: &Place) -> SimNo
    requires { HasGroup (length groups.now) place.now }
    ensures { result.0 ≡ sim_at groups.now place.now }
{
    match place {
        Place::Whole(group) => sim_of_group(groups, *group),
        Place::One(group, _) => sim_of_group(groups, *group),
        Place::Full(sim, _) => *sim,
    }
}

// The simulator of a group.
fn sim_of_group(groups: &List<Group>, group: u32) -> SimNo
    requires { group < length groups.now }
    ensures { result.0 ≡ sim_of_group groups.now group }
{
    groups.at(group as usize).sim
}
