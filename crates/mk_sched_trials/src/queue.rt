//! Steps added and taken.

use mk_base::{Mem, Tier};
use mk_nextstep::Queue;
use std::alloc::Global;

fn at(time: i64) -> Tier {
    Tier { time, tier: 0 }
}

fn queue(alloc: Global) -> Result<Queue, Mem> {
    let mut queue = Queue::new(alloc);
    queue.add_self(at(3))?;
    queue.add_trigger(at(5))?;
    queue.add_trigger(at(3))?;
    Ok(queue)
}

// Whether these are the steps of the queue.
fn has_two(queue: &mut Queue) -> bool {
    queue.least() == Some(at(3))
        && queue.least_trigger_after(at(3)) == Some(at(5))
        && queue.take() == Some(at(3))
        && queue.take() == Some(at(5))
        && queue.take().is_none()
}

fn are_taken(alloc: Global) -> bool {
    match queue(alloc) {
        Ok(mut queue) => has_two(&mut queue),
        Err(_) => false,
    }
}

#[test]
fn the_least_step_is_taken_first_and_two_reasons_are_one_step(rt: HostRuntime) {
    assert!(rt; are_taken(rt.alloc()));
}
