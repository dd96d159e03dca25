//! What holds between each two connections: the marks of both are compared where they stand side by side in order.
ghost use Rattle.std.specs.Prelude.{◌≡◌, map, IfOk};
ghost use Rattle.mk_base.specs.Lists.{same_text};
ghost use Rattle.mk_plan_check.specs.inner.Marks.{label_of, differ, agree, differ_by, agree_by, all_next};
ghost use Rattle.mk_plan_check.specs.Tests.{all_apart, has_one_connection_each, sources_agree, targets_agree};

use crate::marks::{Mark, sort, sources, targets, ways};
use mk_base::Mem;
use mk_plan::Plan;
use std::alloc::Global;

pub(crate) fn has_one_connection_each(alloc: Global, plan: &Plan) -> Result<bool, Mem>
    ensures { IfOk result (λ holds. holds ≡ has_one_connection_each plan.now) }
{
    Ok(are_apart(ways(alloc, plan)?))
}

pub(crate) fn sources_agree(alloc: Global, plan: &Plan) -> Result<bool, Mem>
    ensures { IfOk result (λ holds. holds ≡ sources_agree plan.now) }
{
    Ok(do_agree(sources(alloc, plan)?))
}

pub(crate) fn targets_agree(alloc: Global, plan: &Plan) -> Result<bool, Mem>
    ensures { IfOk result (λ holds. holds ≡ targets_agree plan.now) }
{
    Ok(do_agree(targets(alloc, plan)?))
}

// Whether no two marks have the same numbers and text.
pub(crate) fn are_apart(mut marks: Vec<Mark>) -> bool
    ensures { result ≡ all_apart differ (map label_of marks.entry.items) }
{
    sort(&mut marks);
    next_differ(marks.as_slice())
}

// Whether each two marks with the same numbers and text have the same flag.
fn do_agree(mut marks: Vec<Mark>) -> bool
    ensures { result ≡ all_apart agree (map label_of marks.entry.items) }
{
    sort(&mut marks);
    next_agree(marks.as_slice())
}

fn next_differ(marks: &[Mark]) -> bool
    ensures { result ≡ all_next differ_by marks.now }
{
    marks.is_sorted_by(|one, next| differ(one, next))
}

fn next_agree(marks: &[Mark]) -> bool
    ensures { result ≡ all_next agree_by marks.now }
{
    marks.is_sorted_by(|one, next| agree(one, next))
}

fn are_alike(one: &Mark, other: &Mark) -> bool
    ensures { result ≡ same_text (label_of one.now).key (label_of other.now).key }
{
    one.first == other.first && (one.second == other.second && one.text == other.text)
}

fn differ(one: &Mark, other: &Mark) -> bool
    ensures { result ≡ differ_by one.now other.now }
{
    !are_alike(one, other)
}

fn agree(one: &Mark, other: &Mark) -> bool
    ensures { result ≡ agree_by one.now other.now }
{
    !are_alike(one, other) || one.flag == other.flag
}
