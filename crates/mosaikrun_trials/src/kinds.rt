//! What is tried with kinds of simulators within the program, whose boxes are made here, as a program's `main` makes
//! its own.

use crate::chain::is_long_chain_run;
use crate::orders::is_study_one;
use crate::served::is_counter_served;
use mk_base::Mem;
use mk_local::{
    EntityStep, Kind, Registry, Turn, battery_turn, constant_turn, controller_turn, counter_turn,
    relay_turn, sum_turn,
};
use std::alloc::Global;
use std::sync::Wait;

// Whether a counter that is stepped three times and stopped replies as it must; whether a long chain is run to its end;
// and whether a study has one text over links, in each order of replies, and within the program.
type Right = (bool, bool, bool);

fn are_right<R: Wait>(rt: &R, alloc: Global, kinds: &Registry) -> Result<Right, Mem> {
    Ok((
        is_counter_served(rt, alloc, kinds)?,
        is_long_chain_run(alloc, kinds)?,
        is_study_one(rt, alloc, kinds)?,
    ))
}

fn are_right_with_kinds<R: Wait>(rt: &R, alloc: Global) -> Result<Right, Mem> {
    let mut kinds = Registry::new(alloc);
    kinds.add(Kind::new(
        Turn::Counter,
        Box::new(alloc, |s: EntityStep| counter_turn(s))?,
    ))?;
    kinds.add(Kind::new(Turn::Sum, Box::new(alloc, |s: EntityStep| sum_turn(s))?))?;
    kinds.add(Kind::new(
        Turn::Constant,
        Box::new(alloc, |s: EntityStep| constant_turn(s))?,
    ))?;
    kinds.add(Kind::new(
        Turn::Battery,
        Box::new(alloc, |s: EntityStep| battery_turn(s))?,
    ))?;
    kinds.add(Kind::new(
        Turn::Controller,
        Box::new(alloc, |s: EntityStep| controller_turn(s))?,
    ))?;
    kinds.add(Kind::new(Turn::Relay, Box::new(alloc, |s: EntityStep| relay_turn(s))?))?;
    are_right(rt, alloc, &kinds)
}

#[test]
fn a_counter_a_long_chain_and_a_study_are_run_as_they_must(rt: HostRuntime) {
    assert_eq!(rt;
        are_right_with_kinds(&rt, rt.alloc()),
        Ok((true, true, true))
    );
}
