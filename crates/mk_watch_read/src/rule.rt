//! A rule: its name, its fold, and its body.
ghost use Rattle.std.specs.Prelude.{◌≡◌, ℤ};
ghost use Rattle.mk_base.specs.Numbers.{FitsIn64};
ghost use Rattle.mk_watch_read.specs.Folds.{value_of};

use mk_base::Text;

/// What a rule makes of two numbers: their sum, or the bound of 64 bits that it goes beyond; the
/// lesser; the greater; or the second.
#[derive(Clone, Copy, Debug, PartialEq, Eq)]
pub enum Fold {
    Sum,
    Least,
    Greatest,
    Last,
}

/// A rule: a name, a fold, and a body that may be called on every two numbers of 64 bits and answers
/// there what the fold makes of them.
#[derive(Drop)]
pub struct Rule {
    pub name: Text,
    pub fold: Fold,
    body: Box<dyn Fn(i64, i64) -> i64>,
    ghost callable: { (a : ℤ) (b : ℤ) → FitsIn64 a → FitsIn64 b → pre body a b },
    ghost answers: { (a : ℤ) (b : ℤ) (c : ℤ) → FitsIn64 a → FitsIn64 b → post body a b c
        → c ≡ value_of fold a b },
}

impl Rule {
    /// The rule of this name and fold, which the body computes for two numbers of 64 bits.
    pub fn new(name: Text, fold: Fold, body: Box<dyn Fn(i64, i64) -> i64>) -> Rule
        requires callable { (a : ℤ) → (b : ℤ) → FitsIn64 a → FitsIn64 b → pre body a b }
        requires answers { (a : ℤ) → (b : ℤ) → (c : ℤ) → FitsIn64 a → FitsIn64 b → post body a b c
            → c ≡ value_of fold a b }
        ensures name { result.name ≡ name }
        ensures fold { result.fold ≡ fold }
    {
        Rule { name, fold, body }
    }

    /// What the fold makes of these two numbers, as the body answers it.
    pub fn take(&self, first: i64, second: i64) -> i64
        ensures { result ≡ value_of self.now.fold first second }
    {
        (self.body)(first, second)
    }
}
