//! The judgement of a request, by four tests in order.
ghost use Rattle.std.specs.Prelude.{◌≡◌, true, IfOk, IsSome, Some, option_map};
ghost use Rattle.std.specs.List.{list_all};
ghost use Rattle.mk_base.specs.Trees.{is_in_range};
ghost use Rattle.mk_plan.specs.Plans.{RefersInside};
ghost use Rattle.mk_plan.specs.Asks.{Lookup, answer, knows, permits, request_of};
ghost use Rattle.mk_plan_names.specs.Names.{AreNamesOf};
ghost use Rattle.mk_async.specs.Asked.{asked_in, is_asked_in_range, refusal_by, refusal_in};
ghost use Rattle.mk_async.specs.inner.Judged.{tested};
ghost use Rattle.mk_async.specs.inner.Known.{knows_asked, permits_asked};

use crate::forms::{is_function, request_of};
use crate::known::knows;
use crate::pairs::permits;
use crate::request::Asked;
use mk_base::{Json, List, SimNo, Text};
use mk_plan::Plan;
use mk_plan_names::Names;

// The refusals, by the numbers of the tests that fail.
const UNKNOWN_FUNCTION: u8 = 1;

const MALFORMED: u8 = 2;

const UNKNOWN_NAME: u8 = 3;

const NO_PAIR: u8 = 4;

/// What a simulator asks for by a request in its step (mosaik 3, low-level API), or the number of the first of four
/// tests that the request fails: 1, there is no such function; 2, its arguments haven't the form of the function; 3, an
/// entity isn't there, an attribute isn't one that a connection takes (`get_data`) or that its entity may be given
/// (`set_data`), or a source isn't the simulator's own; 4, an asynchronous connection isn't there. What it costs
/// doesn't grow with the plan, but with the request and the attributes of the models that it names. Takes no memory.
pub fn judge<'a>(
    plan: &Plan,
    names: &Names,
    sim: SimNo,
    name: &Text,
    args: &'a List<Json>,
    named: &Json,
) -> Result<Asked<'a>, u8>
    requires references { RefersInside plan.now }
    requires names { AreNamesOf plan.now names.now }
    ensures refusal { (look : Lookup)
        → refusal_by result ≡ refusal_in (answer plan.now look sim.0 name.now args.now named.now) }
    ensures request { IfOk result (λ asked. asked_in asked
        ≡ request_of name.now args.now named.now) }
    ensures there { IfOk result (λ asked. IsSome (asked_in asked)) }
    ensures known { IfOk result (λ asked. option_map (knows plan.now sim.0) (asked_in asked)
        ≡ Some true) }
    ensures permitted { IfOk result (λ asked. option_map (permits plan.now sim.0) (asked_in asked)
        ≡ Some true) }
    ensures range { list_all is_in_range args.now ≡ true
        → IfOk result (λ asked. is_asked_in_range asked ≡ true) }
{
    if !is_function(name) {
        return Err(UNKNOWN_FUNCTION);
    }
    match request_of(name, args, named) {
        Some(asked) => test(plan, names, sim, asked),
        None => Err(MALFORMED),
    }
}

// The last two tests.
fn test<'a>(plan: &Plan, names: &Names, sim: SimNo, asked: Asked<'a>) -> Result<Asked<'a>, u8>
    requires references { RefersInside plan.now }
    requires names { AreNamesOf plan.now names.now }
    ensures refusal { refusal_by result ≡ tested plan.now sim.0 asked.entry }
    ensures request { IfOk result (λ a. a ≡ asked.entry) }
    ensures known { IfOk result (λ a. knows_asked plan.now sim.0 a ≡ true) }
    ensures permitted { IfOk result (λ a. permits_asked plan.now sim.0 a ≡ true) }
{
    if !knows(plan, names, sim, &asked) {
        Err(UNKNOWN_NAME)
    } else if !permits(plan, names, sim, &asked) {
        Err(NO_PAIR)
    } else {
        Ok(asked)
    }
}
