//! What is tried with a kind of simulators within the program, which is made as the program's `main` makes it.

use crate::failing::first_wrong;
use crate::pacing::first_wrong_pace;
use crate::saving::is_saved_and_replayed;
use mk_base::Mem;
use mk_local::{EntityStep, Kind, Registry, Turn, counter_turn};
use std::alloc::Global;
use std::sync::Wait;

// Whether a run's record is saved and replayed; which row of the calls that fail isn't as it says, if one isn't; and
// which of those by a clock.
type Right = (bool, Option<usize>, Option<usize>);

fn are_right<R: Wait>(rt: &R, alloc: Global, kinds: &Registry) -> Result<Right, Mem> {
    Ok((
        is_saved_and_replayed(rt, alloc, kinds)?,
        first_wrong(rt, alloc, kinds)?,
        first_wrong_pace(rt, alloc, kinds)?,
    ))
}

fn are_right_with_counter<R: Wait>(rt: &R, alloc: Global) -> Result<Right, Mem> {
    let mut kinds = Registry::new(alloc);
    kinds.add(Kind::new(
        Turn::Counter,
        Box::new(alloc, |s: EntityStep| counter_turn(s))?,
    ))?;
    are_right(rt, alloc, &kinds)
}

#[test]
fn a_record_is_saved_each_call_of_folder_and_outputs_fails_in_turn_and_steps_wait_for_a_clock(
    rt: HostRuntime,
) {
    assert_eq!(rt;
        are_right_with_counter(&rt, rt.alloc()),
        Ok((true, None, None))
    );
}
