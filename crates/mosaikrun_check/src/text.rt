//! The text that `check` prints.
ghost use Rattle.std.specs.Prelude.{◌≡◌, ◌++◌, ◌==◌, ◌<◌, ◌^◌, length, position, IfOk, OnOk};
ghost use Rattle.mosaikrun_check.specs.CheckText.{check_text, counted, ids_by_rank, sim_of_rank};

use mk_base::Mem;
use mk_scenario::{Scenario, id_of_sim};
use std::alloc::{AllocError, Global};

// How many simulators, groups and blocks the scenario has, and its simulators' ids in rising rank.
pub fn check_text(alloc: Global, scenario: &Scenario, ranks: &[u32]) -> Result<Vec<u8>, Mem>
    requires { length scenario.now.sims < 2 ^ 32 }
    ensures { IfOk result (λ text. text.items ≡ check_text scenario.now ranks.now) }
{
    let mut out = Vec::new(alloc);
    put_counted(alloc, &mut out, "sims", scenario.sims.len())?;
    put_counted(alloc, &mut out, "groups", scenario.groups.len())?;
    put_counted(alloc, &mut out, "blocks", scenario.blocks.len())?;
    put(&mut out, "order")?;
    put_order(&mut out, scenario, ranks, scenario.sims.len() as u32)?;
    put(&mut out, "\n")?;
    Ok(out)
}

// Puts the ids of the simulators of the first ranks, in rising rank.
fn put_order(
    out: &mut Vec<u8>,
    scenario: &Scenario,
    ranks: &[u32],
    count: u32,
) -> Result<(), AllocError>
    ensures { OnOk result (out.new.items ≡ out.old.items
        ++ ids_by_rank scenario.now ranks.now count) }
{
    for rank in 0..count {
        put(out, " ")?;
        put(
            out,
            id_of_sim(scenario.sims.as_slice(), sim_of_rank(ranks, rank)),
        )?;
    }
    Ok(())
}

// Puts a line with this word and this number.
fn put_counted(alloc: Global, out: &mut Vec<u8>, word: &str, n: usize) -> Result<(), AllocError>
    ensures { OnOk result (out.new.items ≡ out.old.items ++ counted word.now n) }
{
    let line = format!(in alloc; "{word} {n}\n")?;
    put(out, line.as_str())
}

// The simulator of this rank, by its number; 0 where none has it.
fn sim_of_rank(ranks: &[u32], rank: u32) -> usize
    ensures { result ≡ sim_of_rank ranks.now rank }
{
    match place_of(ranks, rank) {
        Some(sim) => sim,
        None => 0,
    }
}

// The first place of this rank.
fn place_of(ranks: &[u32], rank: u32) -> Option<usize>
    ensures { result ≡ position (λ r. r == rank) ranks.now }
{
    ranks.iter().position(|r| *r == rank)
}

// Puts a text.
fn put(out: &mut Vec<u8>, text: &str) -> Result<(), AllocError>
    ensures { OnOk result (out.new.items ≡ out.old.items ++ text.now) }
{
    out.extend_from_slice(text.as_bytes())
}
