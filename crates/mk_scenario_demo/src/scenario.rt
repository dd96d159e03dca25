//! The parts of the demo scenario.
ghost use Rattle.std.specs.Prelude.{◌≡◌, ◌≤◌, IfOk};
ghost use Rattle.mk_base.specs.Limits.{largest_demo};
ghost use Rattle.mk_scenario_demo.specs.Demo.{blocks, demo_scenario, groups, sims};
ghost use Rattle.mk_scenario.specs.Wellformed.{IsWellformed};

use crate::parts::{block, group, nothing, one, sim};
use mk_base::{List, Mem, Via};
use mk_scenario::{Block, Group, Scenario, SimPart};
use std::alloc::Global;

/// The demo scenario of this size, 1 to 100 (`LARGEST_DEMO`): the time goes to 96 times the size, and the size is the
/// parameter `start` of the households. Fails for want of memory alone.
pub fn demo_scenario(alloc: Global, size: u32) -> Result<Scenario, Mem>
    requires low { 1 ≤ size }
    requires high { size ≤ largest_demo }
    ensures made { IfOk result (λ s. s ≡ demo_scenario size) }
    ensures wellformed { IfOk result (λ s. IsWellformed s) }
{
    scenario(alloc, size)
}

fn scenario(alloc: Global, size: u32) -> Result<Scenario, Mem>
    requires { size ≤ largest_demo }
    ensures { IfOk result (λ s. s ≡ demo_scenario size) }
{
    Ok(Scenario {
        until: 96 * size as i64,
        loops: 100,
        entries: 2_000_000,
        sims: sims(alloc)?,
        groups: groups(alloc, size)?,
        blocks: blocks(alloc)?,
    })
}

fn sims(alloc: Global) -> Result<List<SimPart>, Mem>
    ensures { IfOk result (λ s. s ≡ sims) }
{
    let mut list = List::new(alloc);
    list.push(sim(alloc, "House-0", "counter", nothing(alloc))?)?;
    list.push(sim(alloc, "Pv-0", "constant", one(alloc, "step", 4)?)?)?;
    list.push(sim(alloc, "Grid-0", "sum", nothing(alloc))?)?;
    list.push(sim(alloc, "Bat-0", "battery", nothing(alloc))?)?;
    list.push(sim(alloc, "Ctl-0", "controller", nothing(alloc))?)?;
    list.push(sim(alloc, "Log-0", "sum", nothing(alloc))?)?;
    Ok(list)
}

fn groups(alloc: Global, size: u32) -> Result<List<Group>, Mem>
    ensures { IfOk result (λ g. g ≡ groups size) }
{
    let mut list = List::new(alloc);
    list.push(group(alloc, "houses", 0, "Count", 40, one(alloc, "start", size)?)?)?;
    list.push(group(alloc, "pv", 1, "Source", 1, one(alloc, "value", 7)?)?)?;
    list.push(group(alloc, "grid", 2, "Sum", 1, nothing(alloc))?)?;
    list.push(group(alloc, "bat", 3, "Battery", 1, nothing(alloc))?)?;
    list.push(group(alloc, "ctl", 4, "Control", 1, one(alloc, "goal", 3)?)?)?;
    list.push(group(alloc, "log", 5, "Sum", 1, nothing(alloc))?)?;
    Ok(list)
}

fn blocks(alloc: Global) -> Result<List<Block>, Mem>
    ensures { IfOk result (λ b. b ≡ blocks) }
{
    let mut list = List::new(alloc);
    list.push(block(alloc, 0, 2, "out", "in", Via::Plain)?)?;
    list.push(block(alloc, 1, 2, "out", "in", Via::Plain)?)?;
    list.push(block(alloc, 2, 5, "out", "in", Via::Plain)?)?;
    list.push(block(alloc, 3, 4, "soc", "soc", Via::Plain)?)?;
    list.push(block(alloc, 4, 3, "set", "set", Via::Weak)?)?;
    list.push(block(alloc, 3, 5, "soc", "in", Via::Plain)?)?;
    Ok(list)
}
