//! Simulators of some kinds over kinds that a test makes, as a program's `main` does.

ghost use Rattle.std.specs.Prelude.{◌≡◌, true, IfOk};
ghost use Rattle.mk_base.specs.Lists.{IsIn};
ghost use Rattle.mk_local.specs.Calls.{IsCallReplied};
ghost use Rattle.mk_local.specs.Kinds.{has_kind};
ghost use Rattle.mk_local.specs.Registries.{rows_in};
ghost use Rattle.mk_local.specs.Replies.{IsItemReplied};

use mk_base::{Datum, Json, List, Mem, Members, Text, Tier};
use mk_json::{datum, read_json};
use mk_local::{
    EntityStep, EntityTurn, Kind, LocalSim, Registry, Turn, battery_turn, constant_turn,
    controller_turn, counter_turn, relay_turn, sum_turn, turn_of,
};
use mk_plan::{Call, Input, Item, Message, Want};
use std::alloc::Global;

// Parameters of one member.
fn params(alloc: Global, name: &str, value: i128) -> Result<Json, Mem> {
    let name = Text::of(alloc, name)?;
    let mut members = Members::new(alloc);
    members.put(name, Json::Whole(value))?;
    Ok(Json::Object(members))
}

// The reply to a call.
fn called(alloc: Global, kinds: &Registry, sim: &mut LocalSim, call: &Call) -> Result<Message, Mem>
    requires { IsCallReplied call.now }
    ensures { sim.new.kind ≡ sim.old.kind }
{
    sim.answer_call(alloc, kinds, call, 1)
}

// The reply to an item.
fn asked(alloc: Global, kinds: &Registry, sim: &mut LocalSim, item: &Item) -> Result<Message, Mem>
    requires there { IsIn sim.old.kind (rows_in kinds.now) }
    requires replied { IsItemReplied item.now }
    ensures { sim.new.kind ≡ sim.old.kind }
{
    sim.answer_item(alloc, kinds, item, 3)
}

// The reply to an `init` with this parameter.
fn init(
    alloc: Global,
    kinds: &Registry,
    sim: &mut LocalSim,
    name: &str,
    value: i128,
) -> Result<Message, Mem>
    ensures { sim.new.kind ≡ sim.old.kind }
{
    let id = Text::of(alloc, "A-0")?;
    let params = params(alloc, name, value)?;
    called(alloc, kinds, sim, &Call::Init { sim: id, params })
}

// The reply to a `create` of two entities with this parameter.
fn create(
    alloc: Global,
    kinds: &Registry,
    sim: &mut LocalSim,
    model: &str,
    name: &str,
    value: i128,
) -> Result<Message, Mem>
    ensures { sim.new.kind ≡ sim.old.kind }
{
    let model = Text::of(alloc, model)?;
    let params = params(alloc, name, value)?;
    let call = Call::Create {
        num: 2,
        model,
        params,
    };
    called(alloc, kinds, sim, &call)
}

// The reply to a step with one input of the entity 0.
fn step(
    alloc: Global,
    kinds: &Registry,
    sim: &mut LocalSim,
    time: u8,
    attr: &str,
) -> Result<Message, Mem>
    requires { IsIn sim.old.kind (rows_in kinds.now) }
    ensures { sim.new.kind ≡ sim.old.kind }
{
    let inputs = one_input(alloc, attr)?;
    let time = i64::from(time);
    let item = Item::Step {
        at: Tier { time, tier: 0 },
        inputs,
        max_advance: time,
    };
    asked(alloc, kinds, sim, &item)
}

// The value 7.
fn seven(alloc: Global) -> Result<Datum, Mem> {
    match read_json(alloc, b"7") {
        Ok(tree) => match datum(alloc, &tree) {
            Ok(value) => Ok(value),
            Err(_) => Err(Mem),
        },
        Err(_) => Err(Mem),
    }
}

// The value 7 for an attribute of the entity 0.
fn input(alloc: Global, attr: &str) -> Result<Input, Mem> {
    let value = seven(alloc)?;
    let eid = Text::of(alloc, "0")?;
    let attr = Text::of(alloc, attr)?;
    let source = Text::of(alloc, "B-0.0")?;
    Ok(Input {
        eid,
        attr,
        source,
        value,
    })
}

fn one_input(alloc: Global, attr: &str) -> Result<List<Input>, Mem> {
    let input = input(alloc, attr)?;
    let mut inputs = List::new(alloc);
    inputs.push(input)?;
    Ok(inputs)
}

fn want(alloc: Global, eid: &str, attr: &str) -> Result<Want, Mem> {
    let eid = Text::of(alloc, eid)?;
    let attr = Text::of(alloc, attr)?;
    Ok(Want { eid, attr })
}

fn one_want(alloc: Global, eid: &str, attr: &str) -> Result<List<Want>, Mem> {
    let want = want(alloc, eid, attr)?;
    let mut wanted = List::new(alloc);
    wanted.push(want)?;
    Ok(wanted)
}

// The reply to a question for one output.
fn give(
    alloc: Global,
    kinds: &Registry,
    sim: &mut LocalSim,
    eid: &str,
    attr: &str,
) -> Result<Message, Mem>
    requires { IsIn sim.old.kind (rows_in kinds.now) }
    ensures { sim.new.kind ≡ sim.old.kind }
{
    let wanted = one_want(alloc, eid, attr)?;
    asked(alloc, kinds, sim, &Item::GetData { wanted })
}

// The text of a failure; empty for a success.
fn failure_in(message: &Message) -> &str {
    match message {
        Message::Failure { id: _, text } => text.as_str(),
        _ => "",
    }
}

// The content of a success.
fn content_in(message: &Message) -> Option<&Json> {
    match message {
        Message::Success { id: _, content } => Some(content),
        _ => None,
    }
}

// What a success has: a whole number, or that of the only member of the only member; -1 for anything else.
fn success_number(message: &Message) -> i128 {
    match content_in(message) {
        Some(content) => number_in(content),
        None => -1,
    }
}

fn number_in(tree: &Json) -> i128 {
    match tree {
        Json::Whole(n) => *n,
        Json::Object(members) => match members.entries() {
            [(_, value)] => leaf_in(value),
            _ => -1,
        },
        _ => -1,
    }
}

fn leaf_in(tree: &Json) -> i128 {
    match tree {
        Json::Object(members) => match members.entries() {
            [(_, Json::Whole(n))] => *n,
            _ => -1,
        },
        _ => -1,
    }
}

// What a row asks of a simulator, and the answer that it must give.
#[derive(Clone, Copy)]
enum Row {
    // an `init` with one parameter, and its failure; empty where it isn't refused
    Init(&'static str, i128, &'static str),
    // a `create` of a model with one parameter, and its failure
    Create(&'static str, &'static str, i128, &'static str),
    // the next time that the reply to a step with one input gives
    Step(u8, &'static str, i128),
    // the output of an entity; -1 where it gives none
    Output(&'static str, &'static str, i128),
}

fn is_failure(reply: Result<Message, Mem>, failure: &str) -> bool {
    match reply {
        Ok(message) => failure_in(&message) == failure,
        Err(_) => false,
    }
}

fn is_number(reply: Result<Message, Mem>, number: i128) -> bool {
    match reply {
        Ok(message) => success_number(&message) == number,
        Err(_) => false,
    }
}

// Asks for what the row says, and tells whether the answer is its own.
fn is_so(alloc: Global, kinds: &Registry, sim: &mut LocalSim, row: Row) -> bool
    requires { IsIn sim.old.kind (rows_in kinds.now) }
    ensures { sim.new.kind ≡ sim.old.kind }
{
    match row {
        Row::Init(name, value, failure) => {
            is_failure(init(alloc, kinds, sim, name, value), failure)
        }
        Row::Create(model, name, value, failure) => {
            is_failure(create(alloc, kinds, sim, model, name, value), failure)
        }
        Row::Step(time, attr, next) => is_number(step(alloc, kinds, sim, time, attr), next),
        Row::Output(eid, attr, value) => is_number(give(alloc, kinds, sim, eid, attr), value),
    }
}

// How many rows come true, up to the first that doesn't.
fn count_so(alloc: Global, kinds: &Registry, sim: &mut LocalSim, rows: &[Row]) -> usize
    requires { IsIn sim.old.kind (rows_in kinds.now) }
{
    for (place, row) in rows.iter().enumerate() {
        if !is_so(alloc, kinds, sim, *row) {
            return place;
        }
    }
    rows.len()
}

// A simulator of this kind, which is stored.
fn made(alloc: Global, kinds: &Registry, name: &str) -> Result<LocalSim, Mem>
    requires { has_kind name.now (rows_in kinds.now) ≡ true }
    ensures { IfOk result (λ s. IsIn s.kind (rows_in kinds.now)) }
{
    let name = Text::of(alloc, name)?;
    LocalSim::new(alloc, kinds, &name)
}

// How many rows come true of a simulator of this kind; none where it isn't stored.
fn count_of(alloc: Global, kinds: &Registry, name: &str, rows: &[Row]) -> usize {
    if !kinds.has(name) {
        return 0;
    }
    match made(alloc, kinds, name) {
        Ok(mut sim) => count_so(alloc, kinds, &mut sim, rows),
        Err(_) => 0,
    }
}

// What a counter refuses, and what its entities give.
const COUNTER: [Row; 7] = [
    Row::Create("Count", "start", 5, ""),
    Row::Init("speed", 1, "bad parameter speed"),
    Row::Init("step", 3, ""),
    Row::Create("Sum", "start", 0, "unknown model"),
    Row::Step(7, "in", 10),
    Row::Output("1", "out", 12),
    Row::Output("2", "out", -1),
];

// What the entities of a sum give.
const SUM: [Row; 4] = [
    Row::Create("Sum", "bias", 5, ""),
    Row::Step(0, "in", 1),
    Row::Output("0", "out", 12),
    Row::Output("1", "out", 5),
];

fn stored(alloc: Global, kinds: &Registry) -> usize {
    match kinds.names(alloc) {
        Ok(names) => names.len(),
        Err(_) => 0,
    }
}

// How many kinds are stored, and how many rows of a counter and of a sum come true.
fn counts(alloc: Global, kinds: &Registry) -> (usize, usize, usize) {
    let counter = count_of(alloc, kinds, "counter", &COUNTER);
    let sum = count_of(alloc, kinds, "sum", &SUM);
    (stored(alloc, kinds), counter, sum)
}

// The same of two kinds, which are made as a program's `main` makes them.
fn with_two(alloc: Global) -> Result<(usize, usize, usize), Mem> {
    let mut kinds = Registry::new(alloc);
    kinds.add(Kind::new(
        Turn::Counter,
        Box::new(alloc, |s: EntityStep| counter_turn(s))?,
    ))?;
    kinds.add(Kind::new(Turn::Sum, Box::new(alloc, |s: EntityStep| sum_turn(s))?))?;
    Ok(counts(alloc, &kinds))
}

#[test]
fn kinds_are_stored_and_called(rt: HostRuntime) {
    assert_eq!(rt; with_two(rt.alloc()), Ok((2, COUNTER.len(), SUM.len())));
}

// The turn of an entity by its row.
fn turned(turn: Turn, step: EntityStep) -> EntityTurn {
    match turn {
        Turn::Constant => constant_turn(step),
        Turn::Counter => counter_turn(step),
        Turn::Sum => sum_turn(step),
        Turn::Relay => relay_turn(step),
        Turn::Battery => battery_turn(step),
        Turn::Controller => controller_turn(step),
    }
}

// The row of a kind, whether the entity has an input, and the sum of its inputs; the entity's state from then on, its
// output, the next time at which it wants a step, and the time at which its output is made.
type TurnRow = (Turn, bool, i64, i64, Option<i64>, Option<i64>, Option<i64>);

// Whether the row is the turn at 10 of an entity with the step 4, the setting 7 and the state 5.
fn is_turned(row: TurnRow) -> bool {
    let (turn, seen, sum, state, out, next, at) = row;
    let step = EntityStep {
        step: 4,
        setting: 7,
        state: 5,
        time: 10,
        seen,
        sum,
    };
    let wanted = EntityTurn {
        state,
        out,
        next,
        at,
    };
    turned(turn, step) == wanted && turn_of(turn, step) == wanted
}

const TURN_ROWS: [TurnRow; 9] = [
    (Turn::Constant, true, 9, 5, Some(7), Some(14), None),
    (Turn::Counter, false, 0, 5, Some(17), Some(14), None),
    (Turn::Sum, true, 9, 5, Some(16), Some(14), None),
    (Turn::Relay, true, 9, 5, Some(16), None, Some(14)),
    (Turn::Relay, false, 0, 5, None, None, Some(14)),
    (Turn::Battery, true, 9, 6, Some(6), None, None),
    (Turn::Battery, true, 4, 4, Some(4), None, None),
    (Turn::Controller, true, 4, 5, Some(7), None, None),
    (Turn::Controller, true, 9, 5, None, None, None),
];

fn count_turned() -> usize {
    for (place, row) in TURN_ROWS.iter().enumerate() {
        if !is_turned(*row) {
            return place;
        }
    }
    TURN_ROWS.len()
}

#[test]
fn an_entity_of_each_kind_takes_its_turn(rt: HostRuntime) {
    assert_eq!(rt; count_turned(), TURN_ROWS.len());
}
