//! The value of an attribute in the inputs of a Step.
ghost use Rattle.std.specs.Prelude.{◌≡◌};
ghost use Rattle.mk_base.specs.Lists.{same_text};
ghost use Rattle.mk_local.specs.Inputs.{number_in};
ghost use Rattle.mk_watch.specs.Values.{folded, is_watched, number_at, numbers_at, with_number};
ghost use Rattle.mk_watch.specs.inner.Folding.{after_input};

use mk_base::{List, Text};
use mk_local::number_in;
use mk_plan::Input;
use mk_watch_read::Rule;

// The value of these inputs at the attribute of the entity, if there are some.
pub fn folded(rule: &Rule, eid: &Text, attr: &Text, inputs: &List<Input>) -> Option<i64>
    ensures { result ≡ folded rule.now.fold (numbers_at eid.now attr.now inputs.now) }
{
    let mut value = None;
    for input in inputs.as_slice() {
        value = after_input(rule, eid, attr, value, input);
    }
    value
}

// The value so far, and that of one more input.
fn after_input(
    rule: &Rule,
    eid: &Text,
    attr: &Text,
    so_far: Option<i64>,
    input: &Input,
) -> Option<i64>
    ensures { result ≡ after_input rule.now.fold eid.now attr.now so_far input.now }
{
    match number_at(eid, attr, input) {
        None => so_far,
        Some(n) => with_number(rule, so_far, n),
    }
}

// The value so far, and one more number.
pub fn with_number(rule: &Rule, so_far: Option<i64>, n: i64) -> Option<i64>
    ensures { result ≡ with_number rule.now.fold so_far n }
{
    match so_far {
        None => Some(n),
        Some(value) => Some(rule.take(value, n)),
    }
}

// The number of an input, if it is one of the entity at the attribute.
fn number_at(eid: &Text, attr: &Text, input: &Input) -> Option<i64>
    ensures { result ≡ number_at eid.now attr.now input.now }
{
    if is_watched(eid, attr, input) {
        Some(number_in(&input.value))
    } else {
        None
    }
}

fn is_watched(eid: &Text, attr: &Text, input: &Input) -> bool
    ensures { result ≡ is_watched eid.now attr.now input.now }
{
    is_same(&input.eid, eid) && is_same(&input.attr, attr)
}

fn is_same(text: &Text, other: &Text) -> bool
    ensures { result ≡ same_text text.now other.now }
{
    text.bytes() == other.bytes()
}
