//! Plans that fail each part, and how deep texts nest.

use mk_base::{List, Mem, SimKind, Via};
use mk_plan::{Plan, PlanSim};
use mk_plan_check::{PlanFault, check_plan, text_nesting};
use mk_plan_samples::{OUT_TO_IN, Tie, connections, plan_of, simulator};
use std::alloc::Global;

// Two time-based simulators, the second of this rank.
fn simulators(alloc: Global, second_rank: u32) -> Result<List<PlanSim>, Mem> {
    let mut sims = List::new(alloc);
    sims.push(simulator(alloc, "A-0", SimKind::TimeBased, 3, 0)?)?;
    sims.push(simulator(alloc, "B-0", SimKind::TimeBased, 3, second_rank)?)?;
    Ok(sims)
}

// 0 where the plan is valid, the number of the part that fails, or 255 for want of memory.
fn told(alloc: Global, plan: &Plan) -> u8 {
    match check_plan(alloc, plan) {
        Ok(()) => 0,
        Err(PlanFault::Bad(part)) => part,
        Err(PlanFault::Mem) => 255,
    }
}

const MORE: Tie = Tie {
    to_attr: "more",
    persistent: false,
    ..OUT_TO_IN
};

// A plain connection with an initial value.
const ALSO: Tie = Tie {
    to_attr: "also",
    initial: true,
    ..OUT_TO_IN
};

// Time shifts of the greatest width and of one more.
const FAR: Tie = Tie {
    via: Via::Shift(1_000_000),
    ..ALSO
};

const FARTHER: Tie = Tie {
    via: Via::Shift(1_000_001),
    ..ALSO
};

// Up to when a plan goes, the rank of its second simulator, its connections from the first to the second, and what is
// told of it.
type Row = (i64, u32, &'static [Tie], u8);

fn plan(alloc: Global, row: &Row) -> Result<Plan, Mem> {
    let sims = simulators(alloc, row.1)?;
    let conns = connections(alloc, row.2)?;
    plan_of(alloc, row.0, 100, sims, conns)
}

fn is_told(alloc: Global, row: &Row) -> bool {
    match plan(alloc, row) {
        Ok(plan) => told(alloc, &plan) == row.3,
        Err(_) => false,
    }
}

const PLANS: [Row; 8] = [
    (7, 1, &[OUT_TO_IN], 0),
    (7, 1, &[FAR], 0),
    (7, 1, &[FARTHER], 1),
    (0, 1, &[OUT_TO_IN], 1),
    (7, 1, &[OUT_TO_IN, MORE], 5),
    (7, 1, &[OUT_TO_IN, MORE, ALSO], 4),
    (7, 1, &[OUT_TO_IN, MORE, ALSO, OUT_TO_IN], 3),
    (7, 0, &[], 2),
];

// Of how many plans the right part is told, up to the first of which it isn't.
fn count_told(alloc: Global) -> usize {
    for (place, row) in PLANS.iter().enumerate() {
        if !is_told(alloc, row) {
            return place;
        }
    }
    PLANS.len()
}

#[test]
fn each_part_is_told_by_its_number(rt: HostRuntime) {
    assert_eq!(rt; count_told(rt.alloc()), PLANS.len());
}

// Lists and objects within one another, around a text that holds brackets, an escaped quote and a backslash.
const NESTED: &[u8] = b"{\"a\":[[],{\"b\":[1,\"[{[\\\"[\\\\\"]}],\"c\":7}";

#[test]
fn brackets_within_texts_do_not_count(rt: HostRuntime) {
    assert_eq!(rt; text_nesting(NESTED), 4);
}
