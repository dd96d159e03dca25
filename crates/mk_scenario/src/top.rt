//! A document: the top table, and then its simulators, groups and connections.
ghost use Rattle.std.specs.Prelude.{◌≡◌, IfOk, IfErr, Ok};
ghost use Rattle.mk_base.specs.Trees.{member};
ghost use Rattle.mk_scenario_keys.specs.Keys as keys;
ghost use Rattle.mk_scenario_keys.specs.Tests.{IsFaultOf};
ghost use Rattle.mk_scenario.specs.Scenarios as scenarios;

use crate::blocks::blocks_of;
use crate::groups::groups_of;
use crate::parts::Scenario;
use crate::sims::sims_of;
use mk_base::{Json, MOST_CONNS, MOST_ENTITIES, MOST_ENTRIES, MOST_LOOPS, MOST_SIMS, Text};
use mk_scenario_keys::{
    ScenarioFault, Table, count_or, first_unknown, required_tables, required_time, tables_or_none,
};
use std::alloc::Global;

// How many groups and blocks of connections a scenario may have: as many as entities, and as connections.
const MOST_GROUPS: usize = MOST_ENTITIES as usize;

const MOST_BLOCKS: usize = MOST_CONNS as usize;

// The loop limit and the most entries of a journal where they aren't said.
const LOOPS: u32 = 100;

const ENTRIES: u32 = 2_000_000;

// The scenario that a document is.
pub fn scenario_in(alloc: Global, document: &Json) -> Result<Scenario, ScenarioFault>
    ensures ok { IfOk result (λ s. scenarios.scenario_in document.now ≡ Ok s) }
    ensures refused { IfErr result (λ e. IsFaultOf (scenarios.scenario_in document.now) e) }
{
    if let Some(key) = first_unknown(Table::Top, document) {
        return Err(ScenarioFault::UnknownKey(key.copy()?));
    }
    let until = required_time(alloc, "until", document)?;
    let loops = count_at(alloc, LOOPS, MOST_LOOPS, "max_loop_iterations", document)?;
    let entries = count_at(alloc, ENTRIES, MOST_ENTRIES, "max_entries", document)?;
    let sim_tables = required_tables(alloc, MOST_SIMS as usize, "sim", document)?;
    let group_tables = tables_or_none(alloc, MOST_GROUPS, "entities", document)?;
    let block_tables = tables_or_none(alloc, MOST_BLOCKS, "connect", document)?;
    with_parts(
        alloc,
        until,
        loops,
        entries,
        sim_tables,
        group_tables,
        block_tables,
    )
}

// The scenario of these limits and tables.
fn with_parts(
    alloc: Global,
    until: i64,
    loops: u32,
    entries: u32,
    sim_tables: &[Json],
    group_tables: &[Json],
    block_tables: &[Json],
) -> Result<Scenario, ScenarioFault>
    ensures ok { IfOk result
        (λ s. scenarios.with_parts until loops entries sim_tables.now group_tables.now
        block_tables.now ≡ Ok s) }
    ensures refused { IfErr result
        (λ e. IsFaultOf (scenarios.with_parts until loops entries sim_tables.now group_tables.now
        block_tables.now) e) }
{
    let sims = sims_of(alloc, sim_tables)?;
    let groups = groups_of(alloc, &sims, group_tables)?;
    let blocks = blocks_of(alloc, &sims, &groups, block_tables)?;
    Ok(Scenario {
        until,
        loops,
        entries,
        sims,
        groups,
        blocks,
    })
}

// The count under a key of the top table that may be left out, and what stands for it then.
fn count_at(
    alloc: Global,
    instead: u32,
    most: u32,
    key: &str,
    document: &Json,
) -> Result<u32, ScenarioFault>
    ensures ok { IfOk result
        (λ n. keys.optional instead key.now (keys.count_within 1 most) (member key.now document.now)
        ≡ Ok n) }
    ensures refused { IfErr result
        (λ e. IsFaultOf (keys.optional instead key.now (keys.count_within 1 most)
        (member key.now document.now)) e) }
{
    count_or(alloc, instead, most, &Text::of(alloc, key)?, key, document)
}
