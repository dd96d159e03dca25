//! A stock of two simulators: a counter that feeds a sum.
ghost use Rattle.std.specs.Prelude.{◌≡◌, ◌<◌, true, IfOk};
ghost use Rattle.mk_base.specs.Trees.{is_in_range};
ghost use Rattle.mk_plan.specs.Plans.{IsValidPlan, sim_count};
ghost use Rattle.mk_sched_supply.specs.Stock.{IsStockFor};

use crate::common::{are_lines, at, checked, read, sum_plan};
use mk_base::{Json, SimNo};
use mk_plan::{Message, Place, Plan};
use mk_plan_check::PlanFault;
use mk_plan_judge::wrong;
use mk_plan_samples::{OUT_TO_IN, Tie};
use mk_sched_supply::Stock;
use std::alloc::Global;

const COUNTER: SimNo = SimNo(0);

const SUM: SimNo = SimNo(1);

const TIES: [Tie; 2] = [
    Tie {
        persistent: false,
        triggering: true,
        ..OUT_TO_IN
    },
    Tie {
        from_attr: "level",
        to_attr: "p",
        ..OUT_TO_IN
    },
];

// The counter gives its events `out` and its `level` to the sum.
fn plan(alloc: Global) -> Result<Plan, PlanFault>
    ensures { IfOk result (λ plan. IsValidPlan plan) }
{
    checked(alloc, sum_plan(alloc, &TIES)?)
}

// Whether data of the counter give its `level`, its `out` and what triggers, in this order.
fn given(stock: &Stock, content: &Json) -> Option<(bool, bool, bool)> {
    match stock.outputs(COUNTER, content) {
        Ok(outputs) => match (outputs.values.as_slice(), outputs.given.as_slice()) {
            ([level, out], [given]) => Some((level.is_some(), out.is_some(), *given)),
            _ => None,
        },
        Err(_) => None,
    }
}

fn is_found(alloc: Global, stock: &Stock, text: &str, want: (bool, bool, bool)) -> bool {
    match read(alloc, text) {
        Ok(content) => given(stock, &content) == Some(want),
        Err(_) => false,
    }
}

// Takes what the counter gives at a time, if its data are right; another stock of the plan says what that is.
fn take(plan: &Plan, other: &Stock, stock: &mut Stock, time: u8, content: Json) -> bool
    requires sims { 0 < sim_count plan.now }
    requires other { IsStockFor plan.now other.now }
    requires range { is_in_range content ≡ true }
{
    let place = Place::Fetching {
        at: at(time),
        id: 3,
    };
    let message = Message::Success { id: 3, content };
    if wrong(plan, other.wants(COUNTER), COUNTER, &place, &message).is_some() {
        return false;
    }
    match &message {
        Message::Success { id: _, content } => match other.outputs(COUNTER, content) {
            Ok(outputs) => stock.take_outputs(COUNTER, at(time), &outputs).is_ok(),
            Err(_) => false,
        },
        _ => false,
    }
}

// The same of the data of a text.
fn is_taken(
    alloc: Global,
    plan: &Plan,
    other: &Stock,
    stock: &mut Stock,
    time: u8,
    text: &str,
) -> bool
    requires sims { 0 < sim_count plan.now }
    requires other { IsStockFor plan.now other.now }
{
    match read(alloc, text) {
        Ok(content) => take(plan, other, stock, time, content),
        Err(_) => false,
    }
}

// Whether these are the inputs of a step of the sum after an earlier one, as text.
fn is_given(alloc: Global, stock: &Stock, previous: u8, time: u8, want: &str) -> bool {
    match stock.inputs_at(SUM, Some(at(previous)), at(time)) {
        Ok(inputs) => are_lines(alloc, inputs.as_slice(), want),
        Err(_) => false,
    }
}

// The sum asks for nothing before a time.
fn does_forget(stock: &mut Stock, time: u8) -> bool {
    stock.forget_before(SUM, at(time));
    true
}

// What a row does to the stock, or what is asked of it, with the answer that it must get.
#[derive(Clone, Copy)]
enum Row {
    // what the data of the counter give
    Found(&'static str, (bool, bool, bool)),
    // the counter's data at a time, and whether they are right
    Take(u8, &'static str, bool),
    // the inputs of a step of the sum after an earlier one
    Step(u8, u8, &'static str),
    // the sum asks for nothing before a time
    Forget(u8),
    // how many values are kept
    Kept(usize),
    // how many are kept at most
    AtMost(usize),
}

// Does what the row says, and tells whether the answer is its own.
fn is_so(alloc: Global, plan: &Plan, other: &Stock, stock: &mut Stock, row: Row) -> bool
    requires sims { 0 < sim_count plan.now }
    requires other { IsStockFor plan.now other.now }
{
    match row {
        Row::Found(text, want) => is_found(alloc, other, text, want),
        Row::Take(time, text, right) => is_taken(alloc, plan, other, stock, time, text) == right,
        Row::Step(previous, time, want) => is_given(alloc, stock, previous, time, want),
        Row::Forget(time) => does_forget(stock, time),
        Row::Kept(count) => stock.kept() == count,
        Row::AtMost(count) => stock.kept() <= count,
    }
}

const ROWS: [Row; 13] = [
    Row::Found(r#"{"0": {"out": 4}}"#, (false, true, true)),
    Row::Found(
        r#"{"0": {"level": 1}, "1": {"out": 2}}"#,
        (true, false, false),
    ),
    Row::Take(0, r#"{"0": {"level": 7, "out": 0}}"#, true),
    Row::Take(1, r#"{"0": {"out": 1}}"#, true),
    Row::Take(2, r#"{"0": {"out": 2}}"#, true),
    Row::Take(4, r#"{"0": {"level": [8], "out": 4}}"#, true),
    Row::Take(4, r#"{"0": {"out": 0.5}}"#, false),
    Row::Kept(6),
    Row::Step(0, 3, "0.in A-0.0=2;0.p A-0.0=7;"),
    Row::Forget(3),
    Row::AtMost(5),
    Row::Step(0, 3, "0.in A-0.0=2;0.p A-0.0=7;"),
    Row::Step(3, 4, "0.in A-0.0=4;0.p A-0.0=[8];"),
];

// How many rows come true, up to the first that doesn't.
fn count_so(alloc: Global, plan: &Plan, other: &Stock, stock: &mut Stock) -> usize
    requires sims { 0 < sim_count plan.now }
    requires other { IsStockFor plan.now other.now }
{
    for (place, row) in ROWS.iter().enumerate() {
        if !is_so(alloc, plan, other, stock, *row) {
            return place;
        }
    }
    ROWS.len()
}

// The same of another stock of the plan.
fn count_beside(alloc: Global, plan: &Plan, other: &Stock) -> usize
    requires valid { IsValidPlan plan.now }
    requires other { IsStockFor plan.now other.now }
{
    match Stock::new(alloc, plan) {
        Ok(mut stock) => count_so(alloc, plan, other, &mut stock),
        Err(_) => 1000,
    }
}

fn count_of(alloc: Global, plan: &Plan) -> usize
    requires { IsValidPlan plan.now }
{
    match Stock::new(alloc, plan) {
        Ok(other) => count_beside(alloc, plan, &other),
        Err(_) => 1000,
    }
}

fn count_all(alloc: Global) -> usize {
    match plan(alloc) {
        Ok(plan) => count_of(alloc, &plan),
        Err(_) => 1000,
    }
}

#[test]
fn the_sum_gets_what_the_counter_gave(rt: HostRuntime) {
    assert_eq!(rt; count_all(rt.alloc()), 13);
}
