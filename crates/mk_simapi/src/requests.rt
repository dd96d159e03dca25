//! What a request asks for, by its function and its arguments.
ghost use Rattle.std.specs.Prelude.{◌≡◌, true, IfOk, IfSome, option_map};
ghost use Rattle.std.specs.List.{list_all};
ghost use Rattle.mk_base.specs.Trees.{is_in_range};
ghost use Rattle.mk_plan.specs.Asks.{argument};
ghost use Rattle.mk_local.specs.Replies.{IsItemReplied};
ghost use Rattle.mk_simapi.specs.Requests.{bare_in, call_in, create_in, create_of, data_in, init_in, item_in, step_in, step_of};

use crate::forms::{is_bare, is_unnamed};
use crate::gathering::{inputs_in, wants_in};
use mk_base::{Json, LATEST_END, List, Mem, Text, Tier};
use mk_local::whole_from_to;
use mk_plan::{Call, Item};
use std::alloc::Global;

// The call before the run, or the stop, that the request is; `None` where it is none of them.
pub fn call_in(
    alloc: Global,
    name: &Text,
    args: &List<Json>,
    named: &Json,
) -> Result<Option<Call>, Mem>
    ensures { IfOk result (λ call. call ≡ call_in name.now args.now named.now) }
{
    match name.as_str() {
        "init" => init_in(alloc, args, named),
        "create" => create_in(alloc, args, named),
        "setup_done" => Ok(bare_in(Call::SetupDone, args, named)),
        "stop" => Ok(bare_in(Call::Stop, args, named)),
        _ => Ok(None),
    }
}

fn init_in(alloc: Global, args: &List<Json>, named: &Json) -> Result<Option<Call>, Mem>
    ensures { IfOk result (λ call. call ≡ init_in args.now named.now) }
{
    match args.as_slice() {
        [Json::Text(sim)] => Ok(Some(Call::Init {
            sim: sim.copy()?,
            params: named.copy(alloc)?,
        })),
        _ => Ok(None),
    }
}

fn create_in(alloc: Global, args: &List<Json>, named: &Json) -> Result<Option<Call>, Mem>
    ensures { IfOk result (λ call. call ≡ create_in args.now named.now) }
{
    match args.as_slice() {
        [num, model] => create_of(alloc, num, model, named),
        _ => Ok(None),
    }
}

fn create_of(alloc: Global, num: &Json, model: &Json, named: &Json) -> Result<Option<Call>, Mem>
    ensures { IfOk result (λ call. call ≡ create_of num.now model.now named.now) }
{
    let Some(num) = whole_from_to(0, u32::MAX as i64, num) else {
        return Ok(None);
    };
    let Some(model) = model.as_text() else {
        return Ok(None);
    };
    Ok(Some(Call::Create {
        num: num as u32,
        model: model.copy()?,
        params: named.copy(alloc)?,
    }))
}

// The call, where there is no argument.
fn bare_in(call: Call, args: &List<Json>, named: &Json) -> Option<Call>
    ensures { result ≡ bare_in call args.now named.now }
{
    if is_bare(args, named) {
        Some(call)
    } else {
        None
    }
}

// The item of the run that the request is; `None` where it is none.
pub fn item_in(
    alloc: Global,
    name: &Text,
    args: &List<Json>,
    named: &Json,
) -> Result<Option<Item>, Mem>
    requires { list_all is_in_range args.now ≡ true }
    ensures item { IfOk result (λ item. item ≡ item_in name.now args.now named.now) }
    ensures replied { IfOk result (λ item. IfSome item (λ i. IsItemReplied i)) }
{
    match name.as_str() {
        "step" => step_in(alloc, args, named),
        "get_data" => data_in(alloc, args, named),
        _ => Ok(None),
    }
}

fn step_in(alloc: Global, args: &List<Json>, named: &Json) -> Result<Option<Item>, Mem>
    requires { list_all is_in_range args.now ≡ true }
    ensures item { IfOk result (λ item. item ≡ step_in args.now named.now) }
    ensures replied { IfOk result (λ item. IfSome item (λ i. IsItemReplied i)) }
{
    if !is_unnamed(named) {
        return Ok(None);
    }
    match args.as_slice() {
        [time, inputs, advance] => step_of(alloc, time, inputs, advance),
        _ => Ok(None),
    }
}

fn step_of(alloc: Global, time: &Json, inputs: &Json, advance: &Json) -> Result<Option<Item>, Mem>
    requires { is_in_range inputs.now ≡ true }
    ensures item { IfOk result (λ item. item ≡ step_of time.now inputs.now advance.now) }
    ensures replied { IfOk result (λ item. IfSome item (λ i. IsItemReplied i)) }
{
    let Some(time) = whole_from_to(0, LATEST_END, time) else {
        return Ok(None);
    };
    let Some(inputs) = inputs_in(alloc, inputs)? else {
        return Ok(None);
    };
    let Some(max_advance) = whole_from_to(i64::MIN, i64::MAX, advance) else {
        return Ok(None);
    };
    Ok(Some(Item::Step {
        at: Tier { time, tier: 0 },
        inputs,
        max_advance,
    }))
}

fn data_in(alloc: Global, args: &List<Json>, named: &Json) -> Result<Option<Item>, Mem>
    ensures item { IfOk result (λ item. item ≡ data_in args.now named.now) }
    ensures replied { IfOk result (λ item. IfSome item (λ i. IsItemReplied i)) }
{
    let Some(tree) = argument(args, named) else {
        return Ok(None);
    };
    match wants_in(alloc, tree)? {
        Some(wanted) => Ok(Some(Item::GetData { wanted })),
        None => Ok(None),
    }
}

// The one positional argument, where there is no keyword argument.
fn argument<'a>(args: &'a List<Json>, named: &Json) -> Option<&'a Json>
    ensures { option_map (λ t. t.now) result ≡ argument args.now named.now }
{
    if !is_unnamed(named) {
        return None;
    }
    match args.as_slice() {
        [tree] => Some(tree),
        _ => None,
    }
}
