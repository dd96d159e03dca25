//! The report of a journal: the crate's call.
ghost use Rattle.std.specs.Prelude.{◌≡◌, ◌++◌, codes, IfOk, OnOk};
ghost use Rattle.mk_plan.specs.Journals.{sent};
ghost use Rattle.mk_plan.specs.Report.{report};

use crate::lines::{put_bytes, put_total};
use crate::parts::{Part, parts_of};
use mk_base::{Mem, put};
use mk_plan::{Journal, Plan, PlanSim};
use std::alloc::Global;

/// The report of a journal (`docs/formats.md`, "Report"): for each simulator in the order of the plan its id and the
/// lines of the Steps, answers and refusals that it was sent, and at the end how many Steps there were. It says nothing
/// of `max_advance`, of GetDatas, and of the ids of Steps. `Mem` is want of memory.
pub fn write_report(alloc: Global, plan: &Plan, journal: &Journal) -> Result<Vec<u8>, Mem>
    ensures { IfOk result (λ text. text.items ≡ report plan.now (sent journal.now.entries)) }
{
    let parts = parts_of(alloc, plan.sims.len(), journal.entries.as_slice())?;
    let mut out = Vec::new(alloc);
    let mut total: u128 = 0;
    for (place, sim) in plan.sims.as_slice().iter().enumerate() {
        put_part(&mut out, sim, &parts[place])?;
        total += parts[place].steps as u128;
    }
    put_total(alloc, &mut out, total)?;
    Ok(out)
}

// Appends a simulator's part: its id, and the lines of what it was sent.
fn put_part(out: &mut Vec<u8>, sim: &PlanSim, part: &Part) -> Result<(), Mem>
    ensures { OnOk result (out.new.items ≡ out.old.items ++ codes "sim " ++ sim.now.id ++ codes "\n"
        ++ part.now.lines.items) }
{
    put(out, "sim ")?;
    put_bytes(out, sim.id.bytes())?;
    put(out, "\n")?;
    put_bytes(out, part.lines.as_slice())
}
