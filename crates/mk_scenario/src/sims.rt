//! The `sim` tables.
ghost use Rattle.std.specs.Prelude.{◌≡◌, length, codes, false, option_map, option_and_then, unwrap_or, IfOk, IfErr, Ok};
ghost use Rattle.std.specs.List.{filter};
ghost use Rattle.mk_base.specs.Lists.{same_text};
ghost use Rattle.mk_base.specs.Trees.{member, text_in};
ghost use Rattle.mk_base.specs.Verdicts.{passed};
ghost use Rattle.mk_scenario_keys.specs.Tests.{IsFaultOf, each_after, key_in};
ghost use Rattle.mk_scenario.specs.Sims as sims;

use crate::parts::{Begin, SimPart};
use crate::paths::table_path;
use mk_base::{Json, List, Mem, Text};
use mk_scenario_keys::{
    ScenarioFault, Table, first_unknown, key_in, optional_port, optional_text, required_name,
    times_or_none, values_or_none,
};
use std::alloc::Global;

// The simulators of these tables.
pub fn sims_of(alloc: Global, tables: &[Json]) -> Result<List<SimPart>, ScenarioFault>
    ensures ok { IfOk result (λ parts. each_after sims.sim_in tables.now ≡ Ok parts) }
    ensures refused { IfErr result (λ e. IsFaultOf (each_after sims.sim_in tables.now) e) }
{
    let mut parts = List::new(alloc);
    for (i, table) in tables.iter().enumerate() {
        parts.push(sim_in(alloc, &tables[..i], i, table)?)?;
    }
    Ok(parts)
}

// The simulator of the table at place i, after these tables.
fn sim_in(alloc: Global, earlier: &[Json], i: usize, table: &Json) -> Result<SimPart, ScenarioFault>
    ensures ok { IfOk result (λ part. sims.sim_in earlier.now i table.now ≡ Ok part) }
    ensures refused { IfErr result (λ e. IsFaultOf (sims.sim_in earlier.now i table.now) e) }
{
    let path = table_path(alloc, "sim", i)?;
    let part = sim_at(alloc, &path, earlier, table);
    drop(path);
    part
}

// The simulator of the table of this path, after these tables.
fn sim_at(
    alloc: Global,
    path: &Text,
    earlier: &[Json],
    table: &Json,
) -> Result<SimPart, ScenarioFault>
    ensures ok { IfOk result (λ part. sims.sim_at path.now earlier.now table.now ≡ Ok part) }
    ensures refused { IfErr result (λ e. IsFaultOf (sims.sim_at path.now earlier.now table.now) e) }
{
    if let Some(key) = first_unknown(Table::Sim, table) {
        return Err(ScenarioFault::UnknownKey(key_in(alloc, path, key.as_str())?));
    }
    let name = required_name(alloc, path, "name", table)?;
    let command = optional_text(alloc, path, "command", table)?;
    let port = optional_port(alloc, path, "connect", table)?;
    let local = optional_text(alloc, path, "local", table)?;
    sim_made(alloc, path, earlier, table, name, command, port, local)
}

// The simulator of this name that the table of this path says, begun in one of these ways, after these tables.
fn sim_made(
    alloc: Global,
    path: &Text,
    earlier: &[Json],
    table: &Json,
    name: &Text,
    command: Option<&Text>,
    port: Option<u16>,
    local: Option<&Text>,
) -> Result<SimPart, ScenarioFault>
    ensures ok { IfOk result
        (λ part. sims.sim_made path.now earlier.now table.now name.now
        (option_map (λ t. t.now) command.entry) port (option_map (λ t. t.now) local.entry)
        ≡ Ok part) }
    ensures refused { IfErr result
        (λ e. IsFaultOf (sims.sim_made path.now earlier.now table.now name.now
        (option_map (λ t. t.now) command.entry) port (option_map (λ t. t.now) local.entry)) e) }
{
    let params = values_or_none(alloc, path, "params", table)?;
    let initial = match times_or_none(alloc, path, "initial_events", table) {
        Ok(initial) => initial,
        Err(fault) => {
            drop(params);
            return Err(fault);
        }
    };
    match begun(alloc, path, earlier, name, command, port, local, &params) {
        Ok((id, begin)) => Ok(SimPart {
            id,
            begin,
            params,
            initial,
        }),
        Err(fault) => {
            drop(params);
            drop(initial);
            Err(fault)
        }
    }
}

// The id of a simulator of this name after these tables, and how it is begun, in one of these ways with these
// parameters.
fn begun(
    alloc: Global,
    path: &Text,
    earlier: &[Json],
    name: &Text,
    command: Option<&Text>,
    port: Option<u16>,
    local: Option<&Text>,
    params: &Json,
) -> Result<(Text, Begin), ScenarioFault>
    ensures id { IfOk result
        (λ b. b.0 ≡ sims.sim_id (sims.texts_under (codes "name") earlier.now) name.now) }
    ensures begin { IfOk result
        (λ b. sims.begin_of path.now (option_map (λ t. t.now) command.entry) port
        (option_map (λ t. t.now) local.entry) ≡ Ok b.1) }
    ensures own { IfOk result (λ _. sims.own_params path.now params.now ≡ Ok params.now) }
    ensures refused { IfErr result
        (λ e. IsFaultOf (passed
        (sims.begin_of path.now (option_map (λ t. t.now) command.entry) port
        (option_map (λ t. t.now) local.entry)) (λ _. sims.own_params path.now params.now)) e) }
{
    let begin = match begin_of(alloc, path, command, port, local) {
        Ok(begin) => begin,
        Err(fault) => return Err(fault),
    };
    if let Err(fault) = own_params(alloc, path, params) {
        drop(begin);
        return Err(fault);
    }
    let Ok(id) = sim_id(alloc, earlier, name) else {
        drop(begin);
        return Err(ScenarioFault::Mem);
    };
    Ok((id, begin))
}

// The time resolution is the run's, and no parameter in the table of this path.
fn own_params(alloc: Global, path: &Text, params: &Json) -> Result<(), ScenarioFault>
    ensures ok { IfOk result (λ _. sims.own_params path.now params.now ≡ Ok params.now) }
    ensures refused { IfErr result (λ e. IsFaultOf (sims.own_params path.now params.now) e) }
{
    match params.member("time_resolution") {
        Some(_) => Err(ScenarioFault::UnknownKey(resolution_in(alloc, path)?)),
        None => Ok(()),
    }
}

// The path of the time resolution among the parameters of the table of this path: it is always 1.
fn resolution_in(alloc: Global, path: &Text) -> Result<Text, Mem>
    ensures { IfOk result (λ t. t
        ≡ key_in (key_in path.now (codes "params")) (codes "time_resolution")) }
{
    key_in(alloc, &key_in(alloc, path, "params")?, "time_resolution")
}

// How a simulator is begun: in exactly one way.
fn begin_of(
    alloc: Global,
    path: &Text,
    command: Option<&Text>,
    port: Option<u16>,
    local: Option<&Text>,
) -> Result<Begin, ScenarioFault>
    ensures ok { IfOk result
        (λ begin. sims.begin_of path.now (option_map (λ t. t.now) command.entry) port
        (option_map (λ t. t.now) local.entry) ≡ Ok begin) }
    ensures refused { IfErr result
        (λ e. IsFaultOf (sims.begin_of path.now (option_map (λ t. t.now) command.entry) port
        (option_map (λ t. t.now) local.entry)) e) }
{
    match (command, port, local) {
        (Some(command), None, None) => Ok(Begin::Command(command.copy()?)),
        (None, Some(port), None) => Ok(Begin::Connect(port)),
        (None, None, Some(kind)) => Ok(Begin::Local(kind.copy()?)),
        (None, None, None) => Err(ScenarioFault::Missing(key_in(alloc, path, "command")?)),
        _ => Err(ScenarioFault::TwoKinds(path.copy()?)),
    }
}

// The id of a simulator of this name after those of these tables: the name, `-`, and how many of them have the same
// name.
fn sim_id(alloc: Global, earlier: &[Json], name: &Text) -> Result<Text, Mem>
    ensures { IfOk result (λ t. t
        ≡ sims.sim_id (sims.texts_under (codes "name") earlier.now) name.now) }
{
    let number = named_so(earlier, name);
    let name = name.as_str();
    let text = format!(in alloc; "{name}-{number}")?;
    Text::of(alloc, text.as_str())
}

// How many of these tables have this name.
fn named_so(tables: &[Json], name: &Text) -> usize
    ensures { result ≡ length
        (filter (λ n. same_text n name.now) (sims.texts_under (codes "name") tables.now)) }
{
    let mut number = 0;
    for table in tables {
        if is_named(table, name) {
            number += 1;
        }
    }
    number
}

fn is_named(table: &Json, name: &Text) -> bool
    ensures { result ≡ unwrap_or
        (option_map (λ n. same_text n name.now)
        (option_and_then text_in (member (codes "name") table.now))) false }
{
    match table.member("name") {
        Some(value) => match value.as_text() {
            Some(text) => text.bytes() == name.bytes(),
            None => false,
        },
        None => false,
    }
}
