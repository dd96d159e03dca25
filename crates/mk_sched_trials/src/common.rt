//! Plans of two simulators A and B with an entity each, of which some connections trigger.
ghost use Rattle.std.specs.Prelude.{◌≡◌, length, IfOk};

use mk_base::{Mem, SimKind, Via};
use mk_plan::Plan;
use mk_plan_samples::{OUT_TO_IN, Tie, connections, plan_of, two_simulators};
use std::alloc::Global;

/// A triggering connection.
pub fn tie(from: u32, to: u32, via: Via) -> Tie {
    Tie {
        from,
        to,
        via,
        persistent: false,
        triggering: true,
        ..OUT_TO_IN
    }
}

/// A of this kind and B, whose requests begin with these ids, to the time 20 and with at most two rounds.
pub fn plan(
    alloc: Global,
    first: (SimKind, u64),
    second: (SimKind, u64),
    ties: &[Tie],
) -> Result<Plan, Mem>
    ensures { IfOk result (λ plan. length plan.sims ≡ 2) }
{
    let sims = two_simulators(alloc, first, second)?;
    let conns = connections(alloc, ties)?;
    plan_of(alloc, 20, 2, sims, conns)
}

/// Two simulators that trigger one another, the second over such a connection.
pub fn loop_of_two(alloc: Global, via: Via) -> Result<Plan, Mem>
    ensures { IfOk result (λ plan. length plan.sims ≡ 2) }
{
    plan(
        alloc,
        (SimKind::Hybrid, 0),
        (SimKind::EventBased, 0),
        &[tie(0, 1, Via::Plain), tie(1, 0, via)],
    )
}
