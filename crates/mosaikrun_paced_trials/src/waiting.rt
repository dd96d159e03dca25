//! What waits of three simulators, and which Step of theirs is to be sent first.
ghost use Rattle.std.specs.Prelude.{◌≡◌, length, IfOk};

use mk_base::{Mem, SimNo, Tier};
use mk_pace_held::{Due, First, Held, Holds};
use std::alloc::Global;

fn step(place: usize, due: Due) -> Held {
    Held {
        place,
        id: 1,
        due: Some(due),
    }
}

// What stands behind a Step.
fn request(place: usize) -> Held {
    Held {
        place,
        id: 2,
        due: None,
    }
}

const EARLY: Due = Due {
    at: Tier { time: 0, tier: 0 },
    moment: 10,
};

const LATE: Due = Due {
    at: Tier { time: 1, tier: 0 },
    moment: 30,
};

// Of simulator 0 a Step waits and a request behind it; of 1 and 2 a Step each, with an earlier moment.
fn waiting(alloc: Global) -> Result<Holds, Mem>
    ensures { IfOk result (λ holds. length holds ≡ 3) }
{
    let mut holds = Holds::new(alloc, 3)?;
    holds.hold(SimNo(0), step(3, LATE))?;
    holds.hold(SimNo(0), request(6))?;
    holds.hold(SimNo(1), step(5, EARLY))?;
    holds.hold(SimNo(2), step(4, EARLY))?;
    Ok(holds)
}

// Whether this Step is to be sent first, and is what is taken of its simulator then.
fn is_first(holds: &mut Holds, sim: u32, place: usize, due: Due) -> bool
    requires { length holds.old ≡ 3 }
    ensures { length holds.new ≡ 3 }
{
    let sim = SimNo(sim);
    sim.0 < 3
        && holds.first() == Some(First { sim, place, due })
        && holds.take(sim) == Some(step(place, due))
}

fn are_by_moment(holds: &mut Holds) -> bool
    requires { length holds.old ≡ 3 }
{
    is_first(holds, 2, 4, EARLY) && is_first(holds, 1, 5, EARLY) && is_first(holds, 0, 3, LATE)
}

fn are_waiting_by_moment(alloc: Global) -> bool {
    match waiting(alloc) {
        Ok(mut holds) => are_by_moment(&mut holds),
        Err(_) => false,
    }
}

#[test]
fn steps_by_moment_and_then_as_they_were_asked(rt: HostRuntime) {
    assert!(rt; are_waiting_by_moment(rt.alloc()));
}

// A request of the one simulator.
fn behind(alloc: Global) -> Result<Holds, Mem>
    ensures { IfOk result (λ holds. length holds ≡ 1) }
{
    let mut holds = Holds::new(alloc, 1)?;
    holds.hold(SimNo(0), request(6))?;
    Ok(holds)
}

// Whether this waits of the one simulator.
fn is_front(holds: &Holds, held: Option<Held>) -> bool
    requires { length holds.now ≡ 1 }
{
    holds.is_held(SimNo(0)) == held.is_some() && holds.front(SimNo(0)) == held
}

// A request without a Step is never the first to be sent; it is taken of its simulator.
fn is_behind(holds: &mut Holds) -> bool
    requires { length holds.old ≡ 1 }
{
    holds.first().is_none()
        && is_front(holds, Some(request(6)))
        && holds.take(SimNo(0)) == Some(request(6))
        && is_front(holds, None)
        && holds.take(SimNo(0)).is_none()
}

fn is_request_behind(alloc: Global) -> bool {
    match behind(alloc) {
        Ok(mut holds) => is_behind(&mut holds),
        Err(_) => false,
    }
}

#[test]
fn what_stands_behind_a_step(rt: HostRuntime) {
    assert!(rt; is_request_behind(rt.alloc()));
}
