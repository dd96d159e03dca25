//! Turns of the simulators of a small plan, entry by entry.
ghost use Rattle.std.specs.Prelude.{◌≡◌, length, IfOk};
ghost use Rattle.mk_plan.specs.Plans.{sim_count};

use crate::common::plan;
use mk_base::{SimKind, Tier};
use mk_plan::{Place, Plan};
use mk_plan_check::{PlanFault, check_plan};
use mk_plan_samples::{OUT_TO_IN, Who, number};
use mk_sched_open::Sims;
use std::alloc::Global;

// The simulators of a plan, if it is valid.
fn sims_of(alloc: Global, plan: &Plan) -> Result<Sims, PlanFault>
    ensures { IfOk result (λ sims. length sims ≡ sim_count plan.now) }
{
    check_plan(alloc, plan)?;
    Ok(Sims::new(alloc, plan)?)
}

// What comes about at a simulator.
#[derive(Clone, Copy)]
enum Move {
    // It is sent its Step at this time and tier.
    Begin(i64, u32),
    // A right message comes, its turn is at this place from now on, and it returned this next time.
    GoOn(Place, Option<i64>),
    // A right message ends its turn.
    End,
}

// What comes about at a simulator, and what is open from then on, with the next time of its turn and how many messages
// were right.
type Row = (Who, Move, Place, Option<i64>, u64);

// Does what the row says, and tells whether that came of it.
fn is_so(sims: &mut Sims, row: Row) -> bool
    requires { length sims.old ≡ 2 }
    ensures { length sims.new ≡ 2 }
{
    let (who, what, place, next, heard) = row;
    let sim = number(who);
    match what {
        Move::Begin(time, tier) => sims.begin(sim, Tier { time, tier }),
        Move::GoOn(place, next) => sims.go_on(sim, place, next),
        Move::End => sims.end(sim),
    }
    sims.place(sim) == place && sims.next(sim) == next && sims.heard(sim) == heard
}

const ROWS: [Row; 8] = [
    (
        Who::A,
        Move::Begin(0, 0),
        Place::Stepping {
            at: Tier { time: 0, tier: 0 },
            id: 3,
            asks: 0,
        },
        None,
        0,
    ),
    (
        Who::B,
        Move::Begin(0, 0),
        Place::Stepping {
            at: Tier { time: 0, tier: 0 },
            id: 8,
            asks: 0,
        },
        None,
        0,
    ),
    (
        Who::A,
        Move::GoOn(
            Place::Stepping {
                at: Tier { time: 0, tier: 0 },
                id: 3,
                asks: 1,
            },
            None,
        ),
        Place::Stepping {
            at: Tier { time: 0, tier: 0 },
            id: 3,
            asks: 1,
        },
        None,
        1,
    ),
    (
        Who::A,
        Move::GoOn(
            Place::Fetching {
                at: Tier { time: 0, tier: 0 },
                id: 4,
            },
            Some(10),
        ),
        Place::Fetching {
            at: Tier { time: 0, tier: 0 },
            id: 4,
        },
        Some(10),
        2,
    ),
    (Who::B, Move::End, Place::Idle, None, 1),
    (Who::A, Move::End, Place::Idle, Some(10), 3),
    (
        Who::A,
        Move::Begin(10, 0),
        Place::Stepping {
            at: Tier { time: 10, tier: 0 },
            id: 5,
            asks: 0,
        },
        Some(10),
        3,
    ),
    (
        Who::B,
        Move::Begin(4, 1),
        Place::Stepping {
            at: Tier { time: 4, tier: 1 },
            id: 9,
            asks: 0,
        },
        None,
        1,
    ),
];

// How many rows come true, up to the first that doesn't.
fn count_so(sims: &mut Sims) -> usize
    requires { length sims.old ≡ 2 }
{
    for (place, row) in ROWS.iter().enumerate() {
        if !is_so(sims, *row) {
            return place;
        }
    }
    ROWS.len()
}

fn count_of(alloc: Global, plan: &Plan) -> usize
    requires { length plan.now.sims ≡ 2 }
{
    match sims_of(alloc, plan) {
        Ok(mut sims) => count_so(&mut sims),
        Err(_) => 1000,
    }
}

const KIND: SimKind = SimKind::TimeBased;

// The same of the simulators of a plan with a connection from A's entity to B's.
fn count_all(alloc: Global) -> usize {
    match plan(alloc, (KIND, 3), (KIND, 8), &[OUT_TO_IN]) {
        Ok(plan) => count_of(alloc, &plan),
        Err(_) => 1000,
    }
}

#[test]
fn turns_with_a_request_and_with_data(rt: HostRuntime) {
    assert_eq!(rt; count_all(rt.alloc()), 8);
}
