//! The ends of a block's connections: entities by their numbers, and which of them are connected.
ghost use Rattle.std.specs.Prelude.{◌≡◌, [], length, map, IfOk};
ghost use Rattle.std.specs.List.{cons_option, zip};
ghost use Rattle.mk_connect_pairs.specs.Ends.{ends_at, full_id, name_of, pairs_between, place_fault};
ghost use Rattle.mk_connect_pairs.specs.Usable.{HasGroup};

use crate::fault::ConnectFault;
use crate::study::Study;
use mk_base::{List, Mem, Text};
use mk_scenario::{Place, SimPart, id_of_sim};
use std::alloc::Global;

// The entities at a place, none where the full id is no entity's or the group has none at the index.
pub fn ends_at(alloc: Global, study: &Study, place: &Place) -> Result<Vec<u32>, Mem>
    requires { HasGroup (length study.now.members.now) place.now }
    ensures { IfOk result (λ ends. ends.items ≡ ends_at study.now.entities.now place.now) }
{
    match place {
        Place::Whole(group) => all_of(alloc, &study.members[*group as usize]),
        Place::One(group, i) => one_of(
            alloc,
            study.members[*group as usize].get(*i as usize).copied(),
        ),
        Place::Full(sim, eid) => one_of(alloc, study.entities.find(*sim, eid.as_str())),
    }
}

fn all_of(alloc: Global, numbers: &List<u32>) -> Result<Vec<u32>, Mem>
    ensures { IfOk result (λ ends. ends.items ≡ numbers.now) }
{
    Ok(numbers.as_slice().iter().copied().collect(alloc)?)
}

fn one_of(alloc: Global, number: Option<u32>) -> Result<Vec<u32>, Mem>
    ensures { IfOk result (λ ends. ends.items ≡ cons_option number []) }
{
    let mut ends = Vec::new(alloc);
    if let Some(number) = number {
        ends.push(number)?;
    }
    Ok(ends)
}

// The full id that no entity has, if the place is one.
pub fn place_fault(alloc: Global, study: &Study, place: &Place) -> Result<Option<ConnectFault>, Mem>
    ensures { IfOk result (λ fault. fault
        ≡ place_fault study.now.sims.now study.now.entities.now place.now) }
{
    match place {
        Place::Whole(_) => Ok(None),
        Place::One(_, _) => Ok(None),
        Place::Full(sim, eid) => match study.entities.find(*sim, eid.as_str()) {
            Some(_) => Ok(None),
            None => {
                let name = name_of(alloc, study.sims, sim.0, eid)?;
                Ok(Some(ConnectFault::NoEntity(name)))
            }
        },
    }
}

// An entity's name in the whole plan: its simulator's id, a dot, its eid.
fn name_of(alloc: Global, sims: &[SimPart], sim: u32, eid: &Text) -> Result<Text, Mem>
    ensures { IfOk result (λ name. name ≡ name_of sims.now sim eid.now) }
{
    let id = id_of_sim(sims, sim as usize);
    let name = format!(in alloc; "{}.{}", id, eid.as_str())?;
    Text::of(alloc, name.as_str())
}

pub fn full_id(alloc: Global, study: &Study, entity: u32) -> Result<Text, Mem>
    ensures { IfOk result (λ id. id ≡ full_id study.now.sims.now study.now.entities.now entity) }
{
    match study.entities.as_slice().get(entity as usize) {
        Some(entity) => name_of(alloc, study.sims, entity.sim.0, &entity.eid),
        None => Text::of(alloc, ""),
    }
}

// Which entities are connected: where one side has one entity, it and each of the other; else one after the other.
pub fn pairs_between(alloc: Global, froms: &[u32], tos: &[u32]) -> Result<Vec<(u32, u32)>, Mem>
    ensures { IfOk result (λ pairs. pairs.items ≡ pairs_between froms.now tos.now) }
{
    match (froms, tos) {
        (_, [to]) => from_each(alloc, froms, *to),
        ([from], _) => to_each(alloc, *from, tos),
        _ => one_by_one(alloc, froms, tos),
    }
}

fn from_each(alloc: Global, froms: &[u32], to: u32) -> Result<Vec<(u32, u32)>, Mem>
    ensures { IfOk result (λ pairs. pairs.items ≡ map (λ from. (from, to)) froms.now) }
{
    Ok(froms.iter().map(|from| (*from, to)).collect(alloc)?)
}

fn to_each(alloc: Global, from: u32, tos: &[u32]) -> Result<Vec<(u32, u32)>, Mem>
    ensures { IfOk result (λ pairs. pairs.items ≡ map (λ to. (from, to)) tos.now) }
{
    Ok(tos.iter().map(|to| (from, *to)).collect(alloc)?)
}

fn one_by_one(alloc: Global, froms: &[u32], tos: &[u32]) -> Result<Vec<(u32, u32)>, Mem>
    ensures { IfOk result (λ pairs. pairs.items ≡ zip froms.now tos.now) }
{
    Ok(
        froms
            .iter()
            .copied()
            .zip(tos.iter().copied())
            .collect(alloc)?,
    )
}
