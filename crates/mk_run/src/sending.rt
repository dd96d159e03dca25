//! The items of the journal that are sent: the one that an answer of the core left last, or one that
//! waited.
ghost use Rattle.std.specs.Prelude.{◌≡◌, ◌<◌, ℕ, List, IfErr, None, OnErr, OnOk};
ghost use Rattle.mk_local.specs.declared.turn.Turn.{Turn};
ghost use Rattle.mk_local.specs.Registries.{rows_in};
ghost use Rattle.mk_plan.specs.declared.Item.{Item};
ghost use Rattle.mk_plan.specs.Plans.{sim_count};
ghost use Rattle.mk_run_local.specs.Seen.{AreOf};
ghost use Rattle.mk_run_crew.specs.Calls.{SendsAs};
ghost use Rattle.mk_run_crew.specs.Seen.{within_of};
ghost use Rattle.mk_run.specs.inner.Turns.{IsStill};
ghost use Rattle.mk_run.specs.inner.Sendings.{CanSend, CanTake, EndsWithItem, IsItemAt, IsUnsent};

use crate::outcome::Outcome;
use mk_base::SimNo;
use mk_local::Registry;
use mk_plan::{Entry, Item};
use mk_run_crew::Crew;
use mk_sched::Core;

/// Sends the simulator the item that the journal ends with, with the id of the request that is open there. What stands
/// in the way is an outcome, `LongItem` or `Mem`, and the crew is then as it was.
pub fn send_last(core: &Core, crew: &mut Crew, kinds: &Registry, sim: SimNo) -> Result<(), Outcome>
    requires going { core.now.ended ≡ None }
    requires there { sim.0 < sim_count core.now.plan }
    requires known { AreOf (rows_in kinds.now) (within_of crew.old) }
    requires due { CanSend core.now sim crew.old }
    ensures sent { OnOk result ((item : Item) → (id : ℕ) → EndsWithItem core.now sim item id
        → SendsAs sim.0 item id crew.old crew.new) }
    ensures unsent { IfErr result (λ end. (item : Item) → (id : ℕ)
        → EndsWithItem core.now sim item id → IsUnsent end sim.0 item crew.old) }
    ensures err { OnErr result (crew.new ≡ crew.old) }
    ensures same_places { crew.new.places ≡ crew.old.places }
    ensures same_halt { crew.new.halt ≡ crew.old.halt }
    ensures kinds { (rows : List Turn) → AreOf rows (within_of crew.old)
        → AreOf rows (within_of crew.new) }
{
    let Some(id) = core.id_of(sim) else {
        unreachable!()
    };
    let count = core.journal().entries.len();
    send_at(core, crew, kinds, sim, count - 1, id)
}

// The item at a place among these entries.
fn item_at(entries: &[Entry], place: usize) -> &Item
    requires { (item : Item) × IsItemAt entries.now place item }
    ensures { IsItemAt entries.now place result.now }
{
    match &entries[place] {
        Entry::Sent(_, item) => item,
        Entry::Got(_, _) => unreachable!(),
    }
}

/// Sends the simulator the item at this place of the journal, from 0, with this id. What stands in the way is an
/// outcome, `LongItem` or `Mem`, and the crew is then as it was.
pub fn send_at(
    core: &Core,
    crew: &mut Crew,
    kinds: &Registry,
    sim: SimNo,
    place: usize,
    id: u64,
) -> Result<(), Outcome>
    requires known { AreOf (rows_in kinds.now) (within_of crew.old) }
    requires due { (item : Item) × IsItemAt core.now.entries place item
        × CanTake sim.0 item id crew.old }
    ensures sent { OnOk result ((item : Item) → IsItemAt core.now.entries place item
        → SendsAs sim.0 item id crew.old crew.new) }
    ensures unsent { IfErr result (λ end. (item : Item) → IsItemAt core.now.entries place item
        → IsUnsent end sim.0 item crew.old) }
    ensures err { OnErr result (crew.new ≡ crew.old) }
    ensures still { IsStill crew.old crew.new }
    ensures same_halt { crew.new.halt ≡ crew.old.halt }
{
    let item = item_at(core.journal().entries.as_slice(), place);
    match crew.send(kinds, sim, item, id) {
        Ok(()) => Ok(()),
        Err(halt) => Err(Outcome::from(halt)),
    }
}
