//! A message judged, the place after it, and what the data give.
ghost use Rattle.std.specs.Prelude.{◌≡◌, List, Some, IfOk, slice_get};
ghost use Rattle.mk_plan.specs.declared.Want.{Want};
ghost use Rattle.mk_plan.specs.Turns.{wanted};

use mk_base::{Json, List, Mem, SimKind, SimNo, Tier};
use mk_json::{JsonFault, read_json};
use mk_plan::{Cause, Message, Place, Plan, Want};
use mk_plan_check::{PlanFault, check_plan};
use mk_plan_judge::{next_place, values_for, wants_of_all, wrong};
use mk_plan_samples::{OUT_TO_IN, Tie, connections, plan_of, two_simulators};
use std::alloc::Global;

const LEVEL: Tie = Tie {
    from_attr: "level",
    to_attr: "p",
    ..OUT_TO_IN
};

const AGAIN: Tie = Tie {
    to_attr: "q",
    ..OUT_TO_IN
};

// A-0 gives `out` twice and `level` once to B-0.
fn plan(alloc: Global) -> Result<Plan, Mem> {
    let kind = (SimKind::TimeBased, 3);
    let sims = two_simulators(alloc, kind, kind)?;
    let conns = connections(alloc, &[OUT_TO_IN, LEVEL, AGAIN])?;
    plan_of(alloc, 5, 3, sims, conns)
}

// What is open after a reply, or the cause by which it is wrong.
type Judged = Result<Option<Place>, Cause>;

// Whether a reply to the Step of A-0 is judged so.
fn is_judged(plan: &Plan, wants: &List<Want>, message: &Message, want: Judged) -> bool
    requires { wants.now ≡ wanted plan.now 0 }
{
    let place = Place::Stepping {
        at: Tier { time: 2, tier: 0 },
        id: 3,
        asks: 0,
    };
    match wrong(plan, wants, SimNo(0), &place, message) {
        Some(cause) => want == Err(cause),
        None => want == Ok(next_place(wants, &place, message)),
    }
}

fn reply(alloc: Global, text: &str) -> Result<Message, JsonFault> {
    Ok(Message::Success {
        id: 3,
        content: read_json(alloc, text.as_bytes())?,
    })
}

fn is_text_judged(alloc: Global, plan: &Plan, wants: &List<Want>, text: &str, want: Judged) -> bool
    requires { wants.now ≡ wanted plan.now 0 }
{
    match reply(alloc, text) {
        Ok(message) => is_judged(plan, wants, &message, want),
        Err(_) => false,
    }
}

// Whether `level` and `out`, in this order, are all that is wanted of A-0, and these data give `out` alone.
fn are_given(alloc: Global, wants: &List<Want>, content: &Json) -> bool {
    match values_for(alloc, wants, content) {
        Ok(values) => match values.as_slice() {
            [level, out] => level.is_none() && out.is_some(),
            _ => false,
        },
        Err(_) => false,
    }
}

fn is_given(alloc: Global, wants: &List<Want>) -> bool {
    match read_json(alloc, b"{\"0\":{\"out\":null}}") {
        Ok(content) => are_given(alloc, wants, &content),
        Err(_) => false,
    }
}

const FETCHING: Place = Place::Fetching {
    at: Tier { time: 2, tier: 0 },
    id: 4,
};

fn are_right(alloc: Global, plan: &Plan, wants: &List<Want>) -> bool
    requires { wants.now ≡ wanted plan.now 0 }
{
    is_text_judged(alloc, plan, wants, "3", Ok(Some(FETCHING)))
        && is_text_judged(alloc, plan, wants, "2", Err(Cause::Wrong(3)))
        && is_given(alloc, wants)
}

fn are_first_right(alloc: Global, plan: &Plan, lists: &[List<Want>]) -> bool
    requires { (wants : List Want) → slice_get lists.now 0 ≡ Some wants → wants ≡ wanted plan.now 0 }
{
    match lists.first() {
        Some(wants) => are_right(alloc, plan, wants),
        None => false,
    }
}

// What is wanted of each simulator, if the plan is valid.
fn lists_of(alloc: Global, plan: &Plan) -> Result<Vec<List<Want>>, PlanFault>
    ensures { IfOk result (λ lists. (wants : List Want)
        → slice_get lists.items 0 ≡ Some wants → wants ≡ wanted plan.now 0) }
{
    check_plan(alloc, plan)?;
    Ok(wants_of_all(alloc, plan)?)
}

fn is_plan_right(alloc: Global, plan: &Plan) -> bool {
    match lists_of(alloc, plan) {
        Ok(lists) => are_first_right(alloc, plan, lists.as_slice()),
        Err(_) => false,
    }
}

fn is_right(alloc: Global) -> bool {
    match plan(alloc) {
        Ok(plan) => is_plan_right(alloc, &plan),
        Err(_) => false,
    }
}

#[test]
fn the_reply_to_a_step_is_judged_and_each_output_is_wanted_once(rt: HostRuntime) {
    assert!(rt; is_right(rt.alloc()));
}
