//! The folds: their names, and their values.
ghost use Rattle.std.specs.Prelude.{◌≡◌};
ghost use Rattle.mk_watch_read.specs.Folds.{name_of, value_of};
ghost use Rattle.mk_watch_read.specs.declared.rule.Fold.TheVariants as folds;

use crate::rule::Fold;

/// The folds, each once.
pub const FOLDS: [Fold; 4] = [Fold::Sum, Fold::Least, Fold::Greatest, Fold::Last];

/// The name of the fold's rule.
pub fn name_of(fold: Fold) -> &'static str
    ensures { result.now ≡ name_of fold }
{
    match fold {
        Fold::Sum => "sum",
        Fold::Least => "least",
        Fold::Greatest => "greatest",
        Fold::Last => "last",
    }
}

/// What the fold makes of two numbers.
pub fn value_of(fold: Fold, first: i64, second: i64) -> i64
    ensures { result ≡ value_of fold first second }
{
    match fold {
        Fold::Sum => sum(first, second),
        Fold::Least => least(first, second),
        Fold::Greatest => greatest(first, second),
        Fold::Last => last(first, second),
    }
}

/// The sum of two numbers, or the bound of 64 bits that it goes beyond.
pub fn sum(first: i64, second: i64) -> i64
    ensures { result ≡ value_of folds.Sum first second }
{
    first.saturating_add(second)
}

/// The lesser of two numbers.
pub fn least(first: i64, second: i64) -> i64
    ensures { result ≡ value_of folds.Least first second }
{
    first.min(second)
}

/// The greater of two numbers.
pub fn greatest(first: i64, second: i64) -> i64
    ensures { result ≡ value_of folds.Greatest first second }
{
    first.max(second)
}

/// The second of two numbers.
pub fn last(_first: i64, second: i64) -> i64
    ensures { result ≡ value_of folds.Last _first second }
{
    second
}
