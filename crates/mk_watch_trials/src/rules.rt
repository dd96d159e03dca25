//! What is tried with the rules, which are made as a program's `main` makes them.

use crate::endings::ENDINGS;
use crate::said::first_other;
use crate::tables::TABLES;
use mk_base::{Mem, Text};
use mk_watch::{Fold, Rule, Rules, greatest, last, least, sum};
use mk_watch_read::{FOLDS, name_of, value_of};
use std::alloc::Global;

// Which row of the tables, and which of the endings, isn't as it says, if one isn't.
type Wrong = (Option<usize>, Option<usize>);

fn first_wrong(alloc: Global, rules: &Rules) -> Result<Wrong, Mem> {
    Ok((
        first_other(alloc, rules, TABLES)?,
        first_other(alloc, rules, ENDINGS)?,
    ))
}

fn first_wrong_with_rules(alloc: Global) -> Result<Wrong, Mem> {
    let mut rules = Rules::new(alloc);
    rules.add(Rule::new(
        Text::of(alloc, "sum")?,
        Fold::Sum,
        Box::new(alloc, |a: i64, b: i64| sum(a, b))?,
    ))?;
    rules.add(Rule::new(
        Text::of(alloc, "least")?,
        Fold::Least,
        Box::new(alloc, |a: i64, b: i64| least(a, b))?,
    ))?;
    rules.add(Rule::new(
        Text::of(alloc, "greatest")?,
        Fold::Greatest,
        Box::new(alloc, |a: i64, b: i64| greatest(a, b))?,
    ))?;
    rules.add(Rule::new(
        Text::of(alloc, "last")?,
        Fold::Last,
        Box::new(alloc, |a: i64, b: i64| last(a, b))?,
    ))?;
    first_wrong(alloc, &rules)
}

#[test]
fn tables_and_endings_are_as_their_rows_say(rt: HostRuntime) {
    assert_eq!(rt; first_wrong_with_rules(rt.alloc()), Ok((None, None)));
}

// A fold, its name, and what it makes of 5 and 3.
type FoldRow = (Fold, &'static str, i64);

const FOLD_ROWS: [FoldRow; 4] = [
    (Fold::Sum, "sum", 8),
    (Fold::Least, "least", 3),
    (Fold::Greatest, "greatest", 5),
    (Fold::Last, "last", 3),
];

fn is_named(row: FoldRow) -> bool {
    let (fold, name, value) = row;
    name_of(fold) == name && value_of(fold, 5, 3) == value && FOLDS.iter().any(|f| *f == fold)
}

#[test]
fn each_fold_has_a_name_and_a_value(rt: HostRuntime) {
    assert!(rt; FOLD_ROWS.iter().all(|row| is_named(*row)));
    assert_eq!(rt; FOLDS.len(), FOLD_ROWS.len());
}
