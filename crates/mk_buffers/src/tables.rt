//! The tables of new buffers that go by no connection: entities, and what simulators begin with.
ghost use Rattle.std.specs.Prelude.{◌≡◌, ◌<◌, ◌^◌, true, length, false, IfOk, slice_set};
ghost use Rattle.mk_plan.specs.Plans.{RefersInside};
ghost use Rattle.mk_buffers.specs.Marking.{AreAsking};
ghost use Rattle.mk_buffers.specs.inner.Beginning.{HasStarts};
ghost use Rattle.mk_buffers.specs.inner.Standing.{AreHomes, AreUnset};

use crate::buffers::Home;
use crate::marks::Marks;
use crate::outlets::Part;
use crate::sets::Sets;
use mk_base::{Mem, SimNo, Tier};
use mk_plan::Plan;
use std::alloc::Global;

// The entities of a plan.
pub fn homes_of(alloc: Global, plan: &Plan, outlets: &[Part]) -> Result<Vec<Home>, Mem>
    requires references { RefersInside plan.now }
    requires few { length plan.now.entities < 2 ^ 32 }
    requires outlets { length outlets.now ≡ length plan.now.entities }
    ensures { IfOk result (λ homes. AreHomes plan.now outlets.now homes.items) }
{
    let mut homes = Vec::with_capacity(alloc, plan.entities.len())?;
    for place in 0..plan.entities.len() {
        homes.push(Home {
            sim: plan.owner(place as u32).0 as usize,
            eid: plan.entities.at(place).eid.copy()?,
            outlets: outlets[place],
        })?;
    }
    Ok(homes)
}

// What simulators begin with: no set value, their marks, and nothing to look at again.
#[derive(Drop)]
pub struct Starts {
    pub sets: Vec<Sets>,
    pub marks: Marks,
    pub next_marks: Vec<Option<Tier>>,
}

pub fn starts_of(alloc: Global, plan: &Plan) -> Result<Starts, Mem>
    requires references { RefersInside plan.now }
    requires few { length plan.now.entities < 2 ^ 32 }
    ensures { IfOk result (λ starts. HasStarts plan.now starts) }
{
    let marks = Marks::new(alloc, asking(alloc, plan)?)?;
    let sets = empty_sets(alloc, plan.sims.len())?;
    let next_marks = vec![in alloc; None; plan.sims.len()]?;
    Ok(Starts {
        sets,
        marks,
        next_marks,
    })
}

// So many simulators without a set value.
fn empty_sets(alloc: Global, count: usize) -> Result<Vec<Sets>, Mem>
    ensures { IfOk result (λ sets. AreUnset count sets.items) }
{
    let mut sets = Vec::with_capacity(alloc, count)?;
    while sets.len() < count {
        sets.push(Sets::new(alloc))?;
    }
    Ok(sets)
}

// Which simulators have an incoming connection, or may read other simulators' data.
fn asking(alloc: Global, plan: &Plan) -> Result<Vec<bool>, Mem>
    requires references { RefersInside plan.now }
    requires few { length plan.now.entities < 2 ^ 32 }
    ensures { IfOk result (λ asks. AreAsking plan.now asks.items) }
{
    let mut asks = vec![in alloc; false; plan.sims.len()]?;
    for conn in plan.conns.as_slice() {
        ask(&mut asks, plan.owner(conn.to));
    }
    for place in 0..plan.asyncs.len() {
        ask(&mut asks, plan.asyncs.at(place).to);
    }
    Ok(asks)
}

// Notes that the simulator asks.
fn ask(asks: &mut Vec<bool>, sim: SimNo)
    ensures count { length asks.new.items ≡ length asks.old.items }
    ensures here { sim.0 < length asks.old.items
        → asks.new.items ≡ slice_set asks.old.items sim.0 true }
{
    let place = sim.0 as usize;
    if place < asks.len() {
        asks[place] = true;
    }
}
