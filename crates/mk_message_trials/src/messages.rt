//! Payloads read and written, request by request and item by item.
ghost use Rattle.std.specs.Prelude.{◌≡◌, true, IfOk};
ghost use Rattle.mk_message.specs.Written.{is_call_in_range};
ghost use Rattle.mk_plan.specs.Messages.{is_message_in_range};

use crate::texts::{datum_of, tree_of};
use mk_base::{List, Mem, Text, Tier};
use mk_message::{
    ReadFault, Scratch, read, read_in, read_tree, take_tree, write, write_call, write_item,
};
use mk_plan::{Call, Input, Item, Message, Want};
use std::alloc::Global;

fn is_written(alloc: Global, message: &Message, want: &str) -> bool
    requires { is_message_in_range message.now ≡ true }
{
    match write(alloc, message) {
        Ok(payload) => payload.as_slice() == want.as_bytes(),
        Err(_) => false,
    }
}

fn is_right(alloc: Global, message: &Message, want: Result<&str, u8>) -> bool
    requires { is_message_in_range message.now ≡ true }
{
    match want {
        Ok(text) => is_written(alloc, message, text),
        Err(_) => false,
    }
}

fn is_failed(fault: ReadFault, want: Result<&str, u8>) -> bool {
    match (fault, want) {
        (ReadFault::NotAMessage(failed), Err(test)) => failed == test,
        _ => false,
    }
}

// Whether what was read is written as this text, or failed the test of this number.
fn is_told(alloc: Global, told: Result<Message, ReadFault>, want: Result<&str, u8>) -> bool
    requires { IfOk told (λ m. is_message_in_range m ≡ true) }
{
    match told {
        Ok(message) => is_right(alloc, &message, want),
        Err(fault) => is_failed(fault, want),
    }
}

fn is_again(alloc: Global, scratch: &mut Scratch, payload: &[u8], want: Result<&str, u8>) -> bool {
    is_told(alloc, read(alloc, payload), want)
        && is_told(alloc, read_in(alloc, scratch, payload), want)
}

const PAYLOADS: [(&[u8], Result<&'static str, u8>); 10] = [
    (b"[1, 0, null]", Ok("[1,0,null]")),
    (
        b"[0,7,[\"f\",[1,\"a\"],{\"k\":2,\"a\":[]}]]",
        Ok("[0,7,[\"f\",[1,\"a\"],{\"a\":[],\"k\":2}]]"),
    ),
    (
        b"[2,9223372036854775807,\"no\"]",
        Ok("[2,9223372036854775807,\"no\"]"),
    ),
    (b"[1", Err(1)),
    (b"[1,0,1,1]", Err(2)),
    (b"[1.0,0,null]", Err(3)),
    (b"[1,9223372036854775808,null]", Err(4)),
    (b"[2,0,1]", Err(5)),
    (b"[0,0,[\"f\",[]]]", Err(5)),
    (b"[0,0,[\"f\",[],[]]]", Err(5)),
];

// How many are read and written again so, up to the first that isn't.
fn count_again(alloc: Global) -> usize {
    let mut scratch = Scratch::new(alloc);
    for (place, (payload, want)) in PAYLOADS.iter().enumerate() {
        if !is_again(alloc, &mut scratch, payload, *want) {
            return place;
        }
    }
    PAYLOADS.len()
}

#[test]
fn payloads_are_read_and_written_again(rt: HostRuntime) {
    assert_eq!(rt; count_again(rt.alloc()), PAYLOADS.len());
}

const SUCCESS: &str = "[1,0,[\"a\",{}]]";

fn is_copied(alloc: Global) -> bool {
    let tree = tree_of(alloc, SUCCESS);
    is_told(alloc, read_tree(alloc, &tree), Ok(SUCCESS))
}

fn is_moved(alloc: Global) -> bool {
    match take_tree(tree_of(alloc, SUCCESS)) {
        Ok(message) => is_right(alloc, &message, Ok(SUCCESS)),
        Err(_) => false,
    }
}

#[test]
fn a_tree_is_read_as_its_text_is(rt: HostRuntime) {
    assert!(rt; is_copied(rt.alloc()) && is_moved(rt.alloc()));
}

// An input's entity, its attribute, its source and its value.
type Row = (&'static str, &'static str, &'static str, &'static str);

fn push_input(alloc: Global, inputs: &mut List<Input>, row: &Row) -> Result<(), Mem> {
    let value = datum_of(alloc, row.3.as_bytes())?;
    let eid = Text::of(alloc, row.0)?;
    let attr = Text::of(alloc, row.1)?;
    let source = Text::of(alloc, row.2)?;
    inputs.push(Input {
        eid,
        attr,
        source,
        value,
    })
}

fn inputs(alloc: Global, rows: &[Row]) -> Result<List<Input>, Mem> {
    let mut inputs = List::new(alloc);
    for row in rows {
        push_input(alloc, &mut inputs, row)?;
    }
    Ok(inputs)
}

// A step at 0 with these inputs and this `max_advance`.
fn step(alloc: Global, rows: &[Row], max_advance: i64) -> Result<Item, Mem> {
    let inputs = inputs(alloc, rows)?;
    Ok(Item::Step {
        at: Tier { time: 0, tier: 0 },
        inputs,
        max_advance,
    })
}

fn push_want(alloc: Global, wanted: &mut List<Want>, eid: &str, attr: &str) -> Result<(), Mem> {
    let eid = Text::of(alloc, eid)?;
    let attr = Text::of(alloc, attr)?;
    wanted.push(Want { eid, attr })
}

// A request for outputs.
fn get_data(alloc: Global) -> Result<Item, Mem> {
    let mut wanted = List::new(alloc);
    for (eid, attr) in [("e", "a"), ("e", "b"), ("f", "a")] {
        push_want(alloc, &mut wanted, eid, attr)?;
    }
    Ok(Item::GetData { wanted })
}

fn answer(alloc: Global) -> Result<Item, Mem> {
    let content = datum_of(alloc, b"{\"e\":{}}")?;
    Ok(Item::Answer { id: 6, content })
}

fn refusal(reason: u8) -> Item {
    Item::Refuse { id: 9, reason }
}

// An `init` with these parameters.
fn init(alloc: Global, params: &str) -> Result<Call, Mem>
    ensures { IfOk result (λ call. is_call_in_range call ≡ true) }
{
    let sim = Text::of(alloc, "A-0")?;
    Ok(Call::Init {
        sim,
        params: tree_of(alloc, params),
    })
}

// A `create` with these parameters.
fn create(alloc: Global, params: &str) -> Result<Call, Mem>
    ensures { IfOk result (λ call. is_call_in_range call ≡ true) }
{
    let model = Text::of(alloc, "M")?;
    Ok(Call::Create {
        num: 2,
        model,
        params: tree_of(alloc, params),
    })
}

fn is_item(alloc: Global, item: &Item, id: u64, want: &[u8]) -> bool {
    match write_item(alloc, item, id) {
        Ok(payload) => payload.as_slice() == want,
        Err(_) => false,
    }
}

// Whether an item that could be made is written as this with this id.
fn is_made(alloc: Global, item: Result<Item, Mem>, id: u64, want: &[u8]) -> bool {
    match item {
        Ok(item) => is_item(alloc, &item, id, want),
        Err(_) => false,
    }
}

fn is_call(alloc: Global, call: &Call, id: u64, want: &[u8]) -> bool
    requires { is_call_in_range call.now ≡ true }
{
    match write_call(alloc, call, id) {
        Ok(payload) => payload.as_slice() == want,
        Err(_) => false,
    }
}

// Whether a call that could be made is written as this with this id.
fn is_called(alloc: Global, call: Result<Call, Mem>, id: u64, want: &[u8]) -> bool
    requires { IfOk call (λ call. is_call_in_range call ≡ true) }
{
    match call {
        Ok(call) => is_call(alloc, &call, id, want),
        Err(_) => false,
    }
}

const STEPS: [(&[Row], i64, &[u8]); 4] = [
    (&[], 10, b"[0,3,[\"step\",[0,{},10],{}]]"),
    (
        &[("0", "in", "S-0.0", "0")],
        9,
        b"[0,3,[\"step\",[0,{\"0\":{\"in\":{\"S-0.0\":0}}},9],{}]]",
    ),
    (
        &[("0", "in", "S-0.0", "4")],
        2,
        b"[0,3,[\"step\",[0,{\"0\":{\"in\":{\"S-0.0\":4}}},2],{}]]",
    ),
    (
        &[
            ("e", "a", "A-0.x", "1"),
            ("e", "a", "A-0.y", "[2]"),
            ("e", "b", "A-0.x", "3"),
            ("f", "b", "A-0.x", "\"\""),
        ],
        10,
        b"[0,3,[\"step\",[0,{\"e\":{\"a\":{\"A-0.x\":1,\"A-0.y\":[2]},\"b\":{\"A-0.x\":3}},\"f\":{\"b\":{\"A-0.x\":\"\"}}},10],{}]]",
    ),
];

// The numbers of refusals, and what is said.
const REFUSALS: [(u8, &[u8]); 2] = [
    (1, b"[2,9,\"unknown function\"]"),
    (4, b"[2,9,\"no asynchronous connection\"]"),
];

const GET_DATA: &[u8] = b"[0,5,[\"get_data\",[{\"e\":[\"a\",\"b\"],\"f\":[\"a\"]}],{}]]";

fn are_steps_right(alloc: Global) -> bool {
    for (rows, max_advance, want) in &STEPS {
        if !is_made(alloc, step(alloc, rows, *max_advance), 3, want) {
            return false;
        }
    }
    true
}

fn are_refusals_right(alloc: Global) -> bool {
    for (reason, want) in &REFUSALS {
        if !is_item(alloc, &refusal(*reason), 0, want) {
            return false;
        }
    }
    true
}

fn are_data_right(alloc: Global) -> bool {
    is_made(alloc, get_data(alloc), 5, GET_DATA)
        && is_made(alloc, answer(alloc), 0, b"[1,6,{\"e\":{}}]")
}

#[test]
fn steps_are_written(rt: HostRuntime) {
    assert!(rt; are_steps_right(rt.alloc()));
}

#[test]
fn requests_answers_and_refusals_are_written(rt: HostRuntime) {
    assert!(rt; are_data_right(rt.alloc()) && are_refusals_right(rt.alloc()));
}

const INIT: &[u8] = b"[0,0,[\"init\",[\"A-0\"],{\"a\":[2],\"time_resolution\":1,\"z\":1}]]";

const CREATE: &[u8] = b"[0,1,[\"create\",[2,\"M\"],{\"n\":-1}]]";

fn are_calls_right(alloc: Global) -> bool {
    is_called(alloc, init(alloc, "{\"z\":1,\"a\":[2]}"), 0, INIT)
        && is_called(alloc, create(alloc, "{\"n\":-1}"), 1, CREATE)
        && is_call(alloc, &Call::SetupDone, 2, b"[0,2,[\"setup_done\",[],{}]]")
        && is_call(alloc, &Call::Stop, 3, b"[0,3,[\"stop\",[],{}]]")
}

#[test]
fn calls_are_written(rt: HostRuntime) {
    assert!(rt; are_calls_right(rt.alloc()));
}
