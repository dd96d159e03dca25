//! What is said of a fault of the handshake, by the ids of a scenario's simulators.
ghost use Rattle.std.specs.Prelude.{◌≡◌, IfOk};
ghost use Rattle.mosaikrun_sayings.specs.Sayings.{id_in, ids_of, setup_ending};

use mk_base::{List, Mem, SimNo, Text};
use mk_scenario::Scenario;
use mk_setup::SetupFault;
use mosaikrun_endings::{Ending, SetupEnding};
use std::alloc::Global;

/// The ids of a scenario's simulators, in order. `Mem` is want of memory.
pub fn ids_of(alloc: Global, scenario: &Scenario) -> Result<List<Text>, Mem>
    ensures { IfOk result (λ ids. ids ≡ ids_of scenario.now) }
{
    let mut ids = List::new(alloc);
    for sim in scenario.sims.as_slice() {
        ids.push(sim.id.copy()?)?;
    }
    Ok(ids)
}

/// The id of a simulator, by its number; the empty text where there is none of this number.
pub fn id_in(alloc: Global, ids: &List<Text>, sim: SimNo) -> Result<Text, Mem>
    ensures { IfOk result (λ id. id ≡ id_in ids.now sim) }
{
    match ids.get(sim.0 as usize) {
        Some(id) => id.copy(),
        None => Text::of(alloc, ""),
    }
}

/// What is said of a fault of the handshake, the simulators having these ids: `Ending::Mem` of its want of memory, else
/// `Ending::Setup`.
pub fn setup_ending(alloc: Global, ids: &List<Text>, fault: SetupFault) -> Result<Ending, Mem>
    ensures { IfOk result (λ e. e ≡ setup_ending ids.now fault) }
{
    Ok(Ending::Setup(match fault {
        SetupFault::Meta(sim, fault) => SetupEnding::Meta {
            sim: id_in(alloc, ids, sim)?,
            fault,
        },
        SetupFault::Create(sim, fault) => SetupEnding::Create {
            sim: id_in(alloc, ids, sim)?,
            fault,
        },
        SetupFault::Connect(fault) => SetupEnding::Connect(fault),
        SetupFault::Unasked(sim) => SetupEnding::Unasked {
            sim: id_in(alloc, ids, sim)?,
        },
        SetupFault::Failed(sim, text) => SetupEnding::Failed {
            sim: id_in(alloc, ids, sim)?,
            text,
        },
        SetupFault::Mem => return Ok(Ending::Mem),
    }))
}
