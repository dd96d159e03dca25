//! A run of a small plan, step by step.
ghost use Rattle.std.specs.Prelude.{◌≡◌, ◌≤ℤ◌, pos, length, IfOk};
ghost use Rattle.std.specs.Option.{ForSome};
ghost use Rattle.mk_plan.specs.Plans.{sim_count};
ghost use Rattle.mk_sched_agenda.specs.Endings.{CanBeMade};

use crate::common::loop_of_two;
use mk_base::{Mem, SimNo, Tier, Via};
use mk_plan::Plan;
use mk_plan_check::{PlanFault, check_plan};
use mk_plan_samples::{Who, number};
use mk_sched_agenda::{Agenda, Beyond};
use mk_tiers::Bits;
use std::alloc::Global;

// The agenda of a plan, if it is valid.
fn agenda_of(alloc: Global, plan: &Plan) -> Result<Agenda, PlanFault>
    ensures { IfOk result (λ agenda. length agenda.queues ≡ sim_count plan.now) }
{
    check_plan(alloc, plan)?;
    Ok(Agenda::new(alloc, plan)?)
}

// What is done, and what must come of it.
#[derive(Clone, Copy)]
enum Row {
    // The first that is ready is asked: who, at which time and tier, and with which `max_advance`.
    Step(Who, (i64, u32), i64),
    // A turn ends: whose, when its outputs are made, its next time, whether it gives outputs; and the time of a trigger
    // beyond the loop limit.
    End(Who, (u8, u8), Option<u8>, bool, Option<i64>),
    // Nobody is ready: whether some turn is open, and from when on B may still step.
    Nobody(bool, Option<(i64, u32)>),
}

fn made(time: u8, tier: u8) -> Tier
    ensures { CanBeMade result }
{
    Tier {
        time: i64::from(time),
        tier: u32::from(tier),
    }
}

fn next(time: Option<u8>) -> Option<i64>
    ensures { ForSome result (λ n. pos 0 ≤ℤ n) }
{
    match time {
        Some(time) => Some(i64::from(time)),
        None => None,
    }
}

// Asks the first that is ready, if it is this one: when, and with which `max_advance`.
fn ask(agenda: &mut Agenda, who: Who) -> Option<((i64, u32), i64)>
    requires { length agenda.old.queues ≡ 2 }
    ensures { length agenda.new.queues ≡ 2 }
{
    let sim = number(who);
    let ready = agenda.first_ready()?;
    if ready.sim != sim {
        return None;
    }
    let advance = agenda.max_advance(sim, ready.at);
    agenda.step(sim, &mut Bits::new());
    let last = agenda.last_step(sim)?;
    Some(((last.time, last.tier), advance))
}

// Ends a turn, with outputs for all its triggering connections or for none: the first trigger beyond the loop limit.
fn finish(
    alloc: Global,
    agenda: &mut Agenda,
    who: Who,
    at: (u8, u8),
    time: Option<u8>,
    given: bool,
) -> Result<Option<Beyond>, Mem>
    requires { length agenda.old.queues ≡ 2 }
    ensures { length agenda.new.queues ≡ 2 }
{
    let sim = number(who);
    let flags = vec![in alloc; given; agenda.outlets(sim).len()]?;
    agenda.end_turn(sim, made(at.0, at.1), next(time), &flags, &mut Bits::new())
}

// Whether the first trigger beyond the loop limit is at this time, or there is none.
fn is_beyond(ended: Result<Option<Beyond>, Mem>, want: Option<i64>) -> bool {
    match ended {
        Ok(Some(beyond)) => want == Some(beyond.time),
        Ok(None) => want.is_none(),
        Err(_) => false,
    }
}

// From when on B may still step.
fn earliest(agenda: &Agenda) -> Option<(i64, u32)>
    requires { length agenda.now.queues ≡ 2 }
{
    match agenda.earliest(SimNo(1)) {
        Some(end) => Some((end.time, end.tier)),
        None => None,
    }
}

fn is_nobody(agenda: &Agenda, open: bool, end: Option<(i64, u32)>) -> bool
    requires { length agenda.now.queues ≡ 2 }
{
    agenda.first_ready().is_none() && agenda.is_any_open() == open && earliest(agenda) == end
}

// Does what the row says, and tells whether that came of it.
fn is_so(alloc: Global, agenda: &mut Agenda, row: Row) -> bool
    requires { length agenda.old.queues ≡ 2 }
    ensures { length agenda.new.queues ≡ 2 }
{
    match row {
        Row::Step(who, at, advance) => ask(agenda, who) == Some((at, advance)),
        Row::End(who, at, time, given, beyond) => {
            is_beyond(finish(alloc, agenda, who, at, time, given), beyond)
        }
        Row::Nobody(open, end) => is_nobody(agenda, open, end),
    }
}

const ROWS: [Row; 13] = [
    Row::Step(Who::A, (0, 0), 20),
    Row::End(Who::A, (0, 0), Some(5), true, None),
    Row::Step(Who::B, (0, 0), 4),
    Row::End(Who::B, (0, 0), None, true, None),
    Row::Step(Who::A, (0, 1), 20),
    Row::End(Who::A, (0, 1), None, true, None),
    Row::Step(Who::B, (0, 1), 4),
    Row::End(Who::B, (7, 2), None, true, Some(7)),
    Row::Nobody(true, Some((0, 1))),
    Row::End(Who::B, (7, 1), None, true, None),
    Row::Step(Who::A, (5, 0), 6),
    Row::End(Who::A, (5, 0), None, false, None),
    Row::Step(Who::A, (7, 2), 20),
];

// How many rows come true of an agenda, up to the first that doesn't.
fn count_so(alloc: Global, agenda: &mut Agenda) -> usize
    requires { length agenda.old.queues ≡ 2 }
{
    for (place, row) in ROWS.iter().enumerate() {
        if !is_so(alloc, agenda, *row) {
            return place;
        }
    }
    ROWS.len()
}

fn count_of(alloc: Global, plan: &Plan) -> usize
    requires { length plan.now.sims ≡ 2 }
{
    match agenda_of(alloc, plan) {
        Ok(mut agenda) => count_so(alloc, &mut agenda),
        Err(_) => 1000,
    }
}

fn count_all(alloc: Global) -> usize {
    match loop_of_two(alloc, Via::Weak) {
        Ok(plan) => count_of(alloc, &plan),
        Err(_) => 1000,
    }
}

#[test]
fn a_loop_goes_on_up_to_the_loop_limit(rt: HostRuntime) {
    assert_eq!(rt; count_all(rt.alloc()), 13);
}
