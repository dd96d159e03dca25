//! Bounds of two simulators that trigger one another.
ghost use Rattle.std.specs.Prelude.{◌≡◌, ◌<◌, length, IfOk};
ghost use Rattle.mk_plan.specs.Plans.{sim_count};
ghost use Rattle.mk_tiers.specs.Standing.{IsOwn};

use crate::common::loop_of_two;
use mk_base::{SimNo, Tier, Via};
use mk_plan::Plan;
use mk_plan_check::{PlanFault, check_plan};
use mk_plan_samples::{Who, number};
use mk_tiers::Bounds;
use std::alloc::Global;

// The bounds of a plan, if it is valid.
fn bounds_of(alloc: Global, plan: &Plan) -> Result<Bounds, PlanFault>
    ensures { IfOk result (λ bounds. length bounds.owns ≡ sim_count plan.now) }
{
    check_plan(alloc, plan)?;
    Ok(Bounds::new(alloc, plan)?)
}

fn at(time: i64) -> Option<Tier>
    ensures { IsOwn result }
{
    if 0 <= time && time < 100 {
        Some(Tier { time, tier: 0 })
    } else {
        None
    }
}

// What a row does to a simulator, or what is asked of it, with the answer that it must get.
#[derive(Clone, Copy)]
enum Row {
    // a start that is pending or outstanding, or none where the time is below 0
    Start(Who, i64, bool),
    // from when on it may step
    Earliest(Who, Option<Tier>),
    // the same is what comes back from the other at the earliest
    EarliestBack(Who),
    // the least end of the walks that touch it at their end alone
    Outer(Who, Option<i64>),
    // the same is the time of what comes back
    OuterBack(Who),
    // whether it may be asked
    Ready(Who, bool),
    // who may be asked first
    First(Option<SimNo>),
}

// Does what the row says, and tells whether the answer is its own, where so much comes back.
fn is_so(bounds: &mut Bounds, row: Row, back: Tier) -> bool
    requires { length bounds.old.owns ≡ 2 }
    ensures { length bounds.new.owns ≡ 2 }
{
    match row {
        Row::Start(who, time, busy) => {
            bounds.set_own(number(who), at(time), busy);
            true
        }
        Row::Earliest(who, end) => bounds.earliest(number(who)) == end,
        Row::EarliestBack(who) => bounds.earliest(number(who)) == Some(back),
        Row::Outer(who, end) => bounds.outer(number(who)) == end,
        Row::OuterBack(who) => bounds.outer(number(who)) == Some(back.time),
        Row::Ready(who, is_ready) => bounds.ready(number(who)) == is_ready,
        Row::First(sim) => bounds.first_ready() == sim,
    }
}

const ROWS: [Row; 15] = [
    Row::First(None),
    Row::Start(Who::A, 1, false),
    Row::Earliest(Who::B, Some(Tier { time: 1, tier: 0 })),
    // only its own walks come back
    Row::Outer(Who::A, None),
    Row::Start(Who::B, 4, false),
    Row::Ready(Who::A, true),
    Row::Ready(Who::B, false),
    Row::OuterBack(Who::A),
    Row::Outer(Who::B, Some(1)),
    // a start that is outstanding bounds the other, and is asked no more
    Row::Start(Who::A, 1, true),
    Row::First(None),
    Row::Start(Who::A, -1, false),
    Row::EarliestBack(Who::A),
    Row::First(Some(SimNo(1))),
    Row::Outer(Who::B, None),
];

// How many rows come true of bounds, up to the first that doesn't.
fn count_so(bounds: &mut Bounds, back: Tier) -> usize
    requires { length bounds.old.owns ≡ 2 }
{
    for (place, row) in ROWS.iter().enumerate() {
        if !is_so(bounds, *row, back) {
            return place;
        }
    }
    ROWS.len()
}

fn count_of(alloc: Global, plan: &Plan, back: Tier) -> usize
    requires { length plan.now.sims ≡ 2 }
{
    match bounds_of(alloc, plan) {
        Ok(mut bounds) => count_so(&mut bounds, back),
        Err(_) => 1000,
    }
}

// The same of two simulators, over such a connection from the second.
fn count_all(alloc: Global, via: Via, back: Tier) -> usize {
    match loop_of_two(alloc, via) {
        Ok(plan) => count_of(alloc, &plan, back),
        Err(_) => 1000,
    }
}

const WEAKLY: Tier = Tier { time: 4, tier: 1 };

const SHIFTED: Tier = Tier { time: 7, tier: 0 };

#[test]
fn what_comes_back_comes_later(rt: HostRuntime) {
    assert_eq!(rt; count_all(rt.alloc(), Via::Weak, WEAKLY), 15);
    assert_eq!(rt; count_all(rt.alloc(), Via::Shift(3), SHIFTED), 15);
}
