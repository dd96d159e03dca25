//! What a message is wrong by.
ghost use Rattle.std.specs.Prelude.{◌≡◌, ◌==◌, int_lt, nat_lt, if◌then◌else◌};
ghost use Rattle.mk_plan.specs.Turns.{holds_of, is_number, most_asks, too_many_asks, unasked, time_in, wanted, wrong, wrong_data, wrong_next};

use crate::data::{has_bad_time, some_bad_part, some_deep_value, some_odd_value};
use crate::numbers::{LATEST_TIME, is_at_most, is_below};
use mk_base::{Json, List, SimKind, SimNo, Tier};
use mk_plan::{Cause, Message, Place, Plan, Want};

// The causes of wrong messages, by their numbers.
const UNASKED: u8 = 1;

const NOT_A_TIME: u8 = 2;

const NOT_LATER: u8 = 3;

const NO_NEXT: u8 = 4;

const BAD_DATA: u8 = 5;

const EARLY_OUTPUT: u8 = 6;

const NOT_WHOLE: u8 = 7;

const TOO_MANY_ASKS: u8 = 8;

// How many requests may come in one step.
const MOST_ASKS: u32 = 10_000;

/// The first cause that a message of the simulator is wrong by, at the place of what is open there; `None` where it is
/// right, `Failed` where it is a failure reply to the open request. The causes by their numbers are 1, it isn't asked
/// for; 2, a Step's reply is neither null nor a whole number of at most 10^18; 3, it is no later time than the step's;
/// 4, a time-based simulator gives no next time; 5, a GetData's reply has not the form of data, or a wanted value nests
/// deeper than 100; 6, its output time comes before the step; 7, a wanted value has a number that isn't whole; 8, it is
/// a request after 10,000 in its step.
pub fn wrong(
    plan: &Plan,
    wants: &List<Want>,
    sim: SimNo,
    place: &Place,
    message: &Message,
) -> Option<Cause>
    requires { wants.now ≡ wanted plan.now sim.0 }
    ensures { result ≡ wrong plan.now sim.0 place.now message.now }
{
    match place {
        Place::Idle => Some(Cause::Wrong(UNASKED)),
        Place::Stepping { at, id, asks } => match message {
            Message::Ask {
                id: _,
                name: _,
                args: _,
                named: _,
            } => wrong_ask(*asks),
            Message::Success {
                id: answered,
                content,
            } => {
                if answered == id {
                    wrong_next(plan.kind_of(sim), at, content)
                } else {
                    Some(Cause::Wrong(UNASKED))
                }
            }
            Message::Failure {
                id: answered,
                text: _,
            } => failure(*answered, *id),
        },
        Place::Fetching { at, id } => match message {
            Message::Ask {
                id: _,
                name: _,
                args: _,
                named: _,
            } => Some(Cause::Wrong(UNASKED)),
            Message::Success {
                id: answered,
                content,
            } => {
                if answered == id {
                    wrong_data(wants, at, content)
                } else {
                    Some(Cause::Wrong(UNASKED))
                }
            }
            Message::Failure {
                id: answered,
                text: _,
            } => failure(*answered, *id),
        },
    }
}

// The cause of a request after this many in its step.
fn wrong_ask(asks: u32) -> Option<Cause>
    ensures { result ≡ (if nat_lt asks most_asks then None else Some (Cause.Wrong too_many_asks)) }
{
    if asks < MOST_ASKS {
        None
    } else {
        Some(Cause::Wrong(TOO_MANY_ASKS))
    }
}

// The cause of a failure reply.
fn failure(answered: u64, awaited: u64) -> Option<Cause>
    ensures { result ≡ Some (if answered == awaited then Cause.Failed else Cause.Wrong unasked) }
{
    if answered == awaited {
        Some(Cause::Failed)
    } else {
        Some(Cause::Wrong(UNASKED))
    }
}

// The cause that the content of a reply to a Step at `at` is wrong by.
fn wrong_next(kind: SimKind, at: &Tier, content: &Json) -> Option<Cause>
    ensures { result ≡ wrong_next kind at.now content.now }
{
    if !(content.is_null() || is_at_most(content, LATEST_TIME)) {
        Some(Cause::Wrong(NOT_A_TIME))
    } else if content.is_null() && kind == SimKind::TimeBased {
        Some(Cause::Wrong(NO_NEXT))
    } else if is_at_most(content, at.time as i128) {
        Some(Cause::Wrong(NOT_LATER))
    } else {
        None
    }
}

// The cause that the content of a reply to a GetData of a step at `at` is wrong by.
fn wrong_data(wants: &List<Want>, at: &Tier, content: &Json) -> Option<Cause>
    ensures { result ≡ wrong_data wants.now at.now content.now }
{
    if !content.is_object() || has_bad_time(content) {
        Some(Cause::Wrong(BAD_DATA))
    } else if is_early(content, at) {
        Some(Cause::Wrong(EARLY_OUTPUT))
    } else if some_bad_part(wants, content) {
        Some(Cause::Wrong(BAD_DATA))
    } else if some_odd_value(wants, content) {
        Some(Cause::Wrong(NOT_WHOLE))
    } else if some_deep_value(wants, content) {
        Some(Cause::Wrong(BAD_DATA))
    } else {
        None
    }
}

// Whether the data's output time comes before the step at `at`.
fn is_early(content: &Json, at: &Tier) -> bool
    ensures { result ≡ holds_of (is_number (λ n. int_lt n at.now.time)) (time_in content.now) }
{
    match content.member("time") {
        Some(time) => is_below(time, at.time as i128),
        None => false,
    }
}
