//! What is said of a fault of the core, by which a replay or a run ended.
ghost use Rattle.std.specs.Prelude.{◌≡◌, IfOk};
ghost use Rattle.mk_plan.specs.Plans.{sim_id};
ghost use Rattle.mosaikrun_sayings.specs.Stops.{failure_in, last_failure, stop_of};

use mk_base::{Mem, SimNo, Text};
use mk_plan::{Entry, Journal, Message, Plan};
use mk_sched::CoreFault;
use mosaikrun_endings::Ending;
use std::alloc::Global;

/// What is said of a fault of the core, by which a replay or a run of this plan ended, with this journal. A failure
/// reply's text is that of the journal's last entry. `Mem` is want of memory.
pub fn stopped(
    alloc: Global,
    plan: &Plan,
    journal: &Journal,
    fault: CoreFault,
) -> Result<Ending, Mem>
    ensures { IfOk result (λ e. e ≡ stop_of plan.now journal.now.entries fault) }
{
    match fault {
        CoreFault::Wrong { sim, place, cause } => Ok(Ending::Wrong {
            sim: sim_id(alloc, plan, sim)?,
            place,
            cause,
        }),
        CoreFault::Failed { sim, place: _ } => Ok(Ending::Failed {
            sim: sim_id(alloc, plan, sim)?,
            text: last_failure(alloc, journal)?,
        }),
        CoreFault::LoopLimit { sim, time } => Ok(Ending::LoopLimit {
            sim: sim_id(alloc, plan, sim)?,
            time,
        }),
        CoreFault::TooLong { entries } => Ok(Ending::Entries { entries }),
    }
}

// The id of a simulator of the plan; the empty text where there is none of this number.
fn sim_id(alloc: Global, plan: &Plan, sim: SimNo) -> Result<Text, Mem>
    ensures { IfOk result (λ id. id ≡ sim_id plan.now sim.0) }
{
    match plan.sims.get(sim.0 as usize) {
        Some(part) => part.id.copy(),
        None => Text::of(alloc, ""),
    }
}

// The text of the failure reply that the journal ends with; the empty text where it ends otherwise.
fn last_failure(alloc: Global, journal: &Journal) -> Result<Text, Mem>
    ensures { IfOk result (λ text. text ≡ last_failure journal.now.entries) }
{
    match journal.entries.get(journal.entries.len().saturating_sub(1)) {
        Some(entry) => failure_in(alloc, entry),
        None => Text::of(alloc, ""),
    }
}

// The text of a failure reply; the empty text of another entry.
fn failure_in(alloc: Global, entry: &Entry) -> Result<Text, Mem>
    ensures { IfOk result (λ text. text ≡ failure_in entry.now) }
{
    match entry {
        Entry::Got(_, Message::Failure { id: _, text }) => text.copy(),
        Entry::Got(_, Message::Ask { .. }) => Text::of(alloc, ""),
        Entry::Got(_, Message::Success { .. }) => Text::of(alloc, ""),
        Entry::Sent(_, _) => Text::of(alloc, ""),
    }
}
