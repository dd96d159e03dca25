//! The `entities` tables.
ghost use Rattle.std.specs.Prelude.{◌≡◌, codes, IfOk, IfErr, Ok};
ghost use Rattle.mk_base.specs.Trees.{member};
ghost use Rattle.mk_scenario_keys.specs.Keys as keys;
ghost use Rattle.mk_scenario_keys.specs.Tests.{IsFaultOf, each_after, key_in};
ghost use Rattle.mk_scenario.specs.Groups as groups;
ghost use Rattle.mk_scenario.specs.inner.Groups.{IsGroupAdded};
ghost use Rattle.mk_scenario.specs.Scenarios.{ids_of};
ghost use Rattle.mk_base.specs.Limits.{most_entities};

use crate::names::Names;
use crate::parts::{Group, SimPart};
use crate::paths::{path_and, table_path};
use mk_base::{Json, List, MOST_ENTITIES, Mem, SimNo, Text};
use mk_scenario_keys::{
    ScenarioFault, Table, count_or, first_unknown, key_in, required_name, required_text,
    values_or_none,
};
use std::alloc::Global;

// What an `entities` table says.
#[derive(Drop)]
pub struct GroupSaid {
    id: Text,
    sim: Text,
    model: Text,
    num: u32,
    params: Json,
}

// The groups of these tables.
pub fn groups_of(
    alloc: Global,
    sims: &List<SimPart>,
    tables: &[Json],
) -> Result<List<Group>, ScenarioFault>
    ensures ok { IfOk result (λ found. each_after (groups.group_in (ids_of sims.now)) tables.now
        ≡ Ok found) }
    ensures refused { IfErr result
        (λ e. IsFaultOf (each_after (groups.group_in (ids_of sims.now)) tables.now) e) }
{
    let ids = ids_of(alloc, sims.as_slice())?;
    groups_among(alloc, &ids, tables)
}

// The ids of the simulators.
pub fn ids_of(alloc: Global, sims: &[SimPart]) -> Result<Names, Mem>
    ensures { IfOk result (λ ids. ids ≡ ids_of sims.now) }
{
    let mut ids = Names::new(alloc);
    for sim in sims {
        ids = ids.with(alloc, &sim.id)?;
    }
    Ok(ids)
}

// The groups of these tables, among simulators of these ids.
fn groups_among(alloc: Global, sims: &Names, tables: &[Json]) -> Result<List<Group>, ScenarioFault>
    ensures ok { IfOk result (λ found. each_after (groups.group_in sims.now) tables.now
        ≡ Ok found) }
    ensures refused { IfErr result
        (λ e. IsFaultOf (each_after (groups.group_in sims.now) tables.now) e) }
{
    let mut taken = Names::new(alloc);
    let mut found = List::new(alloc);
    for (i, table) in tables.iter().enumerate() {
        taken = add_group(alloc, sims, taken, &mut found, i, table)?;
    }
    drop(taken);
    Ok(found)
}

// Puts the group of the table at place i, where these ids are taken, behind those found; the ids with its own.
fn add_group(
    alloc: Global,
    sims: &Names,
    taken: Names,
    found: &mut List<Group>,
    i: usize,
    table: &Json,
) -> Result<Names, ScenarioFault>
    ensures ok { IfOk result
        (IsGroupAdded (groups.group_next sims.now taken i table.now) found.old found.new taken) }
    ensures refused { IfErr result
        (λ e. IsFaultOf (groups.group_next sims.now taken i table.now) e) }
{
    let group = match group_next(alloc, sims, &taken, i, table) {
        Ok(group) => group,
        Err(fault) => {
            drop(taken);
            return Err(fault);
        }
    };
    let Ok(taken) = taken.with(alloc, &group.id) else {
        drop(group);
        return Err(ScenarioFault::Mem);
    };
    let Ok(()) = found.push(group) else {
        drop(taken);
        return Err(ScenarioFault::Mem);
    };
    Ok(taken)
}

// The group of the table at place i, where these ids are taken.
fn group_next(
    alloc: Global,
    sims: &Names,
    taken: &Names,
    i: usize,
    table: &Json,
) -> Result<Group, ScenarioFault>
    ensures ok { IfOk result (λ group. groups.group_next sims.now taken.now i table.now
        ≡ Ok group) }
    ensures refused { IfErr result
        (λ e. IsFaultOf (groups.group_next sims.now taken.now i table.now) e) }
{
    let path = table_path(alloc, "entities", i)?;
    let group = group_after(alloc, sims, taken, &path, table);
    drop(path);
    group
}

// The group of the table of this path, where these ids are taken.
fn group_after(
    alloc: Global,
    sims: &Names,
    taken: &Names,
    path: &Text,
    table: &Json,
) -> Result<Group, ScenarioFault>
    ensures ok { IfOk result (λ group. groups.group_after sims.now taken.now path.now table.now
        ≡ Ok group) }
    ensures refused { IfErr result
        (λ e. IsFaultOf (groups.group_after sims.now taken.now path.now table.now) e) }
{
    let said = group_said(alloc, path, table)?;
    group_made(alloc, sims, taken, path, said)
}

// What the table of this path says.
fn group_said(alloc: Global, path: &Text, table: &Json) -> Result<GroupSaid, ScenarioFault>
    ensures ok { IfOk result (λ said. groups.group_said path.now table.now ≡ Ok said) }
    ensures refused { IfErr result (λ e. IsFaultOf (groups.group_said path.now table.now) e) }
{
    if let Some(key) = first_unknown(Table::Group, table) {
        return Err(ScenarioFault::UnknownKey(key_in(alloc, path, key.as_str())?));
    }
    let id = required_name(alloc, path, "id", table)?;
    let sim = required_text(alloc, path, "sim", table)?;
    let model = required_text(alloc, path, "model", table)?;
    let num = num_of(alloc, path, table)?;
    let params = values_or_none(alloc, path, "params", table)?;
    Ok(said_of(id, sim, model, num, params)?)
}

// What a table says by these words.
fn said_of(id: &Text, sim: &Text, model: &Text, num: u32, params: Json) -> Result<GroupSaid, Mem>
    ensures { IfOk result (λ said. said
        ≡ record { id = id.now; sim = sim.now; model = model.now; num = num; params = params }) }
{
    let (id, sim, model) = copies(id, sim, model)?;
    Ok(GroupSaid {
        id,
        sim,
        model,
        num,
        params,
    })
}

fn copies(id: &Text, sim: &Text, model: &Text) -> Result<(Text, Text, Text), Mem>
    ensures { IfOk result (λ all. all ≡ (id.now, sim.now, model.now)) }
{
    Ok((id.copy()?, sim.copy()?, model.copy()?))
}

// How many entities the table of this path asks for.
fn num_of(alloc: Global, path: &Text, table: &Json) -> Result<u32, ScenarioFault>
    ensures ok { IfOk result
        (λ n. keys.optional 1 (key_in path.now (codes "num")) (keys.count_within 1 most_entities)
        (member (codes "num") table.now) ≡ Ok n) }
    ensures refused { IfErr result
        (λ e. IsFaultOf (keys.optional 1 (key_in path.now (codes "num")) (keys.count_within 1 most_entities)
        (member (codes "num") table.now)) e) }
{
    count_or(
        alloc,
        1,
        MOST_ENTITIES,
        &key_in(alloc, path, "num")?,
        "num",
        table,
    )
}

// The simulator of this id.
pub fn sim_of_id(alloc: Global, sims: &Names, path: &Text, id: &str) -> Result<SimNo, ScenarioFault>
    ensures ok { IfOk result (λ no. groups.sim_of_id sims.now path.now id.now ≡ Ok no) }
    ensures refused { IfErr result (λ e. IsFaultOf (groups.sim_of_id sims.now path.now id.now) e) }
{
    match sims.place_of(id) {
        Some(place) => Ok(SimNo(place)),
        None => {
            let (path, id) = path_and(alloc, path, id)?;
            Err(ScenarioFault::UnknownSim(path, id))
        }
    }
}

// The simulator of the group that a table of this path says, where these ids are taken.
fn said_sim(
    alloc: Global,
    sims: &Names,
    taken: &Names,
    path: &Text,
    said: &GroupSaid,
) -> Result<SimNo, ScenarioFault>
    ensures ok { IfOk result (λ no. groups.said_sim sims.now taken.now path.now said.now ≡ Ok no) }
    ensures refused { IfErr result
        (λ e. IsFaultOf (groups.said_sim sims.now taken.now path.now said.now) e) }
{
    if taken.has(said.id.as_str()) {
        return Err(ScenarioFault::Taken(said.id.copy()?));
    }
    sim_of_id(alloc, sims, &key_in(alloc, path, "sim")?, said.sim.as_str())
}

// The group that a table of this path says, where these ids are taken.
fn group_made(
    alloc: Global,
    sims: &Names,
    taken: &Names,
    path: &Text,
    said: GroupSaid,
) -> Result<Group, ScenarioFault>
    ensures ok { IfOk result (λ group. groups.group_made sims.now taken.now path.now said
        ≡ Ok group) }
    ensures refused { IfErr result
        (λ e. IsFaultOf (groups.group_made sims.now taken.now path.now said) e) }
{
    match said_sim(alloc, sims, taken, path, &said) {
        Ok(sim) => Ok(Group {
            id: said.id,
            sim,
            model: said.model,
            num: said.num,
            params: said.params,
        }),
        Err(fault) => {
            drop(said);
            Err(fault)
        }
    }
}
