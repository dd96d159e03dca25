//! Times and bounds in messages.
ghost use Rattle.std.specs.Prelude.{◌≡◌, int_le, int_lt, FitsSigned, option_and_then};
ghost use Rattle.std.specs.Int.{w64};
ghost use Rattle.std.specs.Option.{ForSome};
ghost use Rattle.mk_base.specs.Trees.{whole_in};
ghost use Rattle.mk_plan.specs.Turns.{is_number, is_output_time, time_in};

use mk_base::Json;

// The latest time that a message may name.
pub const LATEST_TIME: i128 = 1_000_000_000_000_000_000;

// The earliest output time that a message may name.
const EARLIEST_TIME: i128 = -9_223_372_036_854_775_808;

/// The next time that a right reply to a Step returns, in the scenario's unit; `None` where it returns null.
pub fn next_time(content: &Json) -> Option<i64>
    requires { ForSome (whole_in content.now) (λ n. FitsSigned w64 n) }
    ensures { result ≡ whole_in content.now }
{
    match content.as_whole() {
        Some(time) => Some(time as i64),
        None => None,
    }
}

/// The output time that a right reply to a GetData gives, in the scenario's unit; `None` where it gives none.
pub fn output_time(content: &Json) -> Option<i64>
    requires { ForSome (option_and_then whole_in (time_in content.now)) (λ n. FitsSigned w64 n) }
    ensures { result ≡ option_and_then whole_in (time_in content.now) }
{
    next_time(content.member("time")?)
}

// Whether the tree is a whole number up to the bound.
pub fn is_at_most(tree: &Json, bound: i128) -> bool
    ensures { result ≡ is_number (λ n. int_le n bound) tree.now }
{
    match tree.as_whole() {
        Some(number) => number <= bound,
        None => false,
    }
}

// Whether the tree is a whole number below the bound.
pub fn is_below(tree: &Json, bound: i128) -> bool
    ensures { result ≡ is_number (λ n. int_lt n bound) tree.now }
{
    match tree.as_whole() {
        Some(number) => number < bound,
        None => false,
    }
}

// Whether the tree is a whole number that may be an output time.
pub fn is_output_time(tree: &Json) -> bool
    ensures { result ≡ is_number is_output_time tree.now }
{
    match tree.as_whole() {
        Some(number) => EARLIEST_TIME <= number && number <= LATEST_TIME,
        None => false,
    }
}
