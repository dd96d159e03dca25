//! The parameters of `init` and `create`.
ghost use Rattle.std.specs.Prelude.{◌≡◌, ◌≤ℤ◌, IfSome, option_map};
ghost use Rattle.mk_local.specs.Calls.{as_setting, as_step, first_bad, is_create_param, is_init_param, setting_in, step_in, whole_from_to};
ghost use Rattle.mk_local.specs.Rows.{IsStepOf};

use crate::names::{least_step, setting_of};
use crate::turn::Turn;
use mk_base::{Json, Text};

// The greatest step.
const GREATEST_STEP: i64 = 1_000_000;

// The greatest setting; the least is its opposite.
const GREATEST_SETTING: i64 = 1_000_000_000_000;

// The first parameter of `init` that the row's kind doesn't take.
pub fn first_bad_of_init(turn: Turn, params: &Json) -> Option<&Text>
    ensures { option_map (λ t. t.now) result ≡ first_bad (is_init_param turn) params.now }
{
    let members = params.members();
    for (name, value) in members {
        if !is_init_param(turn, name, value) {
            return Some(name);
        }
    }
    None
}

// The first parameter of `create` that the row's kind doesn't take.
pub fn first_bad_of_create(turn: Turn, params: &Json) -> Option<&Text>
    ensures { option_map (λ t. t.now) result ≡ first_bad (is_create_param turn) params.now }
{
    let members = params.members();
    for (name, value) in members {
        if !is_create_param(turn, name, value) {
            return Some(name);
        }
    }
    None
}

// The step that the parameters give, or the kind's own.
pub fn step_in(turn: Turn, params: &Json) -> i64
    ensures same { result ≡ step_in turn params.now }
    ensures in_range { IsStepOf turn result }
{
    match params.member("step") {
        Some(value) => match as_step(turn, value) {
            Some(step) => step,
            None => least_step(turn),
        },
        None => least_step(turn),
    }
}

// The setting that the parameters give, or 0.
pub fn setting_in(turn: Turn, params: &Json) -> i64
    ensures { result ≡ setting_in turn params.now }
{
    match params.member(setting_of(turn)) {
        Some(value) => match as_setting(value) {
            Some(setting) => setting,
            None => 0,
        },
        None => 0,
    }
}

fn is_init_param(turn: Turn, name: &Text, value: &Json) -> bool
    ensures { result ≡ is_init_param turn (name.now, value.now) }
{
    name.as_str() == "time_resolution"
        || (name.as_str() == "step" && as_step(turn, value).is_some())
}

fn is_create_param(turn: Turn, name: &Text, value: &Json) -> bool
    ensures { result ≡ is_create_param turn (name.now, value.now) }
{
    name.as_str() == setting_of(turn) && as_setting(value).is_some()
}

// The step that the value is.
fn as_step(turn: Turn, value: &Json) -> Option<i64>
    ensures same { result ≡ as_step turn value.now }
    ensures in_range { IfSome result (λ n. IsStepOf turn n) }
{
    whole_from_to(least_step(turn), GREATEST_STEP, value)
}

// The setting that the value is.
fn as_setting(value: &Json) -> Option<i64>
    ensures { result ≡ as_setting value.now }
{
    whole_from_to(-GREATEST_SETTING, GREATEST_SETTING, value)
}

/// The whole number from the least to the most that the value is; `None` for any other value.
pub fn whole_from_to(least: i64, most: i64, value: &Json) -> Option<i64>
    ensures same { result ≡ whole_from_to least most value.now }
    ensures in_range { IfSome result (λ n. (least ≤ℤ n) × (n ≤ℤ most)) }
{
    match value.as_whole() {
        Some(n) => {
            if least as i128 <= n && n <= most as i128 {
                Some(n as i64)
            } else {
                None
            }
        }
        None => None,
    }
}
