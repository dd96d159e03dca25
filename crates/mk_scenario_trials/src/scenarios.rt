//! The demo scenario, as a file says it and as it is made.
use crate::files::DEMO;
use mk_base::{Json, Via};
use mk_scenario::{AttrPair, Begin, Block, Group, Place, Scenario, SimPart, read_scenario};
use mk_scenario_demo::demo_scenario;
use std::alloc::Global;

// The id of each simulator and its kind.
const SIMS: [(&str, &str); 6] = [
    ("House-0", "counter"),
    ("Pv-0", "constant"),
    ("Grid-0", "sum"),
    ("Bat-0", "battery"),
    ("Ctl-0", "controller"),
    ("Log-0", "sum"),
];

// The id of each group, its simulator, how many entities it has, their model, a parameter and its value.
const GROUPS: [(&str, u32, u32, &str, &str, i128); 6] = [
    ("houses", 0, 40, "Count", "start", 1),
    ("pv", 1, 1, "Source", "value", 7),
    ("grid", 2, 1, "Sum", "", 0),
    ("bat", 3, 1, "Battery", "", 0),
    ("ctl", 4, 1, "Control", "goal", 3),
    ("log", 5, 1, "Sum", "", 0),
];

// The groups of each connection, how it delivers, and its attributes.
const BLOCKS: [(u32, u32, Via, &str, &str); 6] = [
    (0, 2, Via::Plain, "out", "in"),
    (1, 2, Via::Plain, "out", "in"),
    (2, 5, Via::Plain, "out", "in"),
    (3, 4, Via::Plain, "soc", "soc"),
    (4, 3, Via::Weak, "set", "set"),
    (3, 5, Via::Plain, "soc", "in"),
];

fn is_sim(sim: &SimPart, want: (&str, &str)) -> bool {
    match &sim.begin {
        Begin::Local(kind) => sim.id.as_str() == want.0 && kind.as_str() == want.1,
        _ => false,
    }
}

// The whole number of a parameter, or 0 where there is none.
fn parameter_number(params: &Json, name: &str) -> i128 {
    match params.member(name) {
        Some(Json::Whole(number)) => *number,
        _ => 0,
    }
}

fn is_group(group: &Group, want: (&str, u32, u32, &str, &str, i128)) -> bool {
    group.id.as_str() == want.0
        && (group.sim.0, group.num) == (want.1, want.2)
        && group.model.as_str() == want.3
        && parameter_number(&group.params, want.4) == want.5
}

fn is_whole(place: &Place, group: u32) -> bool {
    match place {
        Place::Whole(number) => *number == group,
        _ => false,
    }
}

fn is_pair(pairs: &[AttrPair], from: &str, to: &str) -> bool {
    match pairs {
        [pair] => pair.from.as_str() == from && pair.to.as_str() == to,
        _ => false,
    }
}

fn is_block(block: &Block, want: (u32, u32, Via, &str, &str)) -> bool {
    is_whole(&block.from, want.0)
        && is_whole(&block.to, want.1)
        && block.via == want.2
        && is_pair(block.attrs.as_slice(), want.3, want.4)
}

fn are_sims(sims: &[SimPart]) -> bool {
    for (sim, want) in sims.iter().zip(&SIMS) {
        if !is_sim(sim, *want) {
            return false;
        }
    }
    sims.len() == 6
}

fn are_groups(groups: &[Group]) -> bool {
    for (group, want) in groups.iter().zip(&GROUPS) {
        if !is_group(group, *want) {
            return false;
        }
    }
    groups.len() == 6
}

fn are_blocks(blocks: &[Block]) -> bool {
    for (block, want) in blocks.iter().zip(&BLOCKS) {
        if !is_block(block, *want) {
            return false;
        }
    }
    blocks.len() == 6
}

fn is_demo(scenario: &Scenario) -> bool {
    (scenario.until, scenario.loops, scenario.entries) == (96, 100, 2_000_000)
        && are_sims(scenario.sims.as_slice())
        && are_groups(scenario.groups.as_slice())
        && are_blocks(scenario.blocks.as_slice())
}

fn is_read(alloc: Global) -> bool {
    match read_scenario(alloc, DEMO.as_bytes()) {
        Ok(scenario) => is_demo(&scenario),
        Err(_) => false,
    }
}

fn is_made(alloc: Global) -> bool {
    match demo_scenario(alloc, 1) {
        Ok(scenario) => is_demo(&scenario),
        Err(_) => false,
    }
}

#[test]
fn the_file_is_the_demo_of_size_one(rt: HostRuntime) {
    assert!(rt; is_read(rt.alloc()) && is_made(rt.alloc()));
}
