//! Buffers of two simulators: a counter that feeds a sum.

use crate::common::{are_lines, at, sum_plan};
use mk_base::{Datum, Mem, SimNo, Text};
use mk_buffers::Buffers;
use mk_plan::{Plan, SetValue};
use mk_plan_check::{PlanFault, check_plan};
use mk_plan_samples::OUT_TO_IN;
use std::alloc::Global;

// The buffers of a plan, if it is valid.
fn buffers_of(alloc: Global, plan: &Plan) -> Result<Buffers, PlanFault> {
    check_plan(alloc, plan)?;
    Ok(Buffers::new(alloc, plan)?)
}

// The text of a number.
fn number(alloc: Global, number: u8) -> Result<Datum, Mem> {
    let text = format!(in alloc; "{number}")?;
    Ok(Datum::of(text.into_bytes()))
}

// A value for `in` of the sum, under a source.
fn set_value(alloc: Global, source: &str, value: u8) -> Result<SetValue, Mem> {
    Ok(SetValue {
        source: Text::of(alloc, source)?,
        entity: 1,
        attr: Text::of(alloc, "in")?,
        value: number(alloc, value)?,
    })
}

fn text(value: Option<&Datum>) -> &str {
    match value {
        Some(value) => std::str::from_utf8(value.bytes()).unwrap_or(""),
        None => "none",
    }
}

// What a row does to the buffers, or what is asked of them, with the answer that it must get.
#[derive(Clone, Copy)]
enum Row {
    // the counter's value, made at a time, by the name of its attribute
    Deliver(u8, u8),
    // the same by the first outlet
    Feed(u8, u8),
    // a value for `in` of the sum at a time, under a source
    Give(u8, &'static str, u8),
    // the sum asks for nothing before a time
    Forget(u8),
    // the inputs of a step of the sum, after an earlier one
    Step(u8, u8, &'static str),
    // the counter's value that counts at a time
    Value(u8, &'static str),
    // how many values are kept
    Kept(usize),
    // how many are kept at most
    AtMost(usize),
    // how many simulators there are
    Sims(usize),
}

fn deliver(alloc: Global, buffers: &mut Buffers, time: u8, value: u8) -> Result<(), Mem> {
    let out = Text::of(alloc, "out")?;
    buffers.deliver(0, &out, at(time), number(alloc, value)?)
}

fn feed(alloc: Global, buffers: &mut Buffers, time: u8, value: u8) -> Result<(), Mem> {
    let outlet = buffers.first_outlet(SimNo(0));
    buffers.deliver_to(outlet, at(time), number(alloc, value)?)
}

// A value for `in` of the sum at a time, under a source.
fn give(
    alloc: Global,
    buffers: &mut Buffers,
    time: u8,
    source: &str,
    value: u8,
) -> Result<(), Mem> {
    let value = set_value(alloc, source, value)?;
    buffers.give(at(time), value)
}

fn is_given(alloc: Global, buffers: &Buffers, previous: u8, time: u8, want: &str) -> bool {
    match buffers.inputs_at(SimNo(1), Some(at(previous)), at(time)) {
        Ok(inputs) => are_lines(alloc, inputs.as_slice(), want),
        Err(_) => false,
    }
}

fn is_value(alloc: Global, buffers: &Buffers, time: u8, want: &str) -> bool {
    match Text::of(alloc, "out") {
        Ok(out) => text(buffers.value_at(0, &out, at(time))) == want,
        Err(_) => false,
    }
}

// Whether the sum can be told that it asks for nothing before a time.
fn does_forget(buffers: &mut Buffers, time: u8) -> bool {
    buffers.forget_before(SimNo(1), at(time));
    true
}

// Does what the row says, and tells whether the answer is its own.
fn is_so(alloc: Global, buffers: &mut Buffers, row: Row) -> bool {
    match row {
        Row::Deliver(time, value) => deliver(alloc, buffers, time, value).is_ok(),
        Row::Feed(time, value) => feed(alloc, buffers, time, value).is_ok(),
        Row::Give(time, source, value) => give(alloc, buffers, time, source, value).is_ok(),
        Row::Forget(time) => does_forget(buffers, time),
        Row::Step(previous, time, want) => is_given(alloc, buffers, previous, time, want),
        Row::Value(time, want) => is_value(alloc, buffers, time, want),
        Row::Kept(count) => buffers.kept() == count,
        Row::AtMost(count) => buffers.kept() <= count,
        Row::Sims(count) => buffers.sims() == count,
    }
}

const ROWS: [Row; 16] = [
    Row::Sims(2),
    Row::Feed(0, 0),
    Row::Deliver(1, 1),
    Row::Deliver(2, 2),
    Row::Deliver(3, 3),
    Row::Deliver(4, 4),
    Row::Step(0, 3, "0.in A-0.0=3;"),
    Row::Value(2, "2"),
    Row::Kept(5),
    Row::Forget(3),
    Row::AtMost(3),
    Row::Step(0, 3, "0.in A-0.0=3;"),
    Row::Step(0, 4, "0.in A-0.0=4;"),
    // a value that is set replaces that of a connection with the same source
    Row::Give(3, "A-0.0", 9),
    Row::Give(3, "B-0.0", 1),
    Row::Step(0, 3, "0.in A-0.0=9;0.in B-0.0=1;"),
];

// How many rows come true, up to the first that doesn't.
fn count_so(alloc: Global, buffers: &mut Buffers) -> usize {
    for (place, row) in ROWS.iter().enumerate() {
        if !is_so(alloc, buffers, *row) {
            return place;
        }
    }
    ROWS.len()
}

fn count_of(alloc: Global, plan: &Plan) -> usize {
    match buffers_of(alloc, plan) {
        Ok(mut buffers) => count_so(alloc, &mut buffers),
        Err(_) => 1000,
    }
}

fn count_all(alloc: Global) -> usize {
    match sum_plan(alloc, &[OUT_TO_IN]) {
        Ok(plan) => count_of(alloc, &plan),
        Err(_) => 1000,
    }
}

#[test]
fn a_step_gets_the_value_of_its_time(rt: HostRuntime) {
    assert_eq!(rt; count_all(rt.alloc()), 16);
}
