//! What tells connections, or entities, apart: two numbers and a text, with a flag beside them. Sorted by these, the
//! marks that are alike stand side by side.
ghost use Rattle.std.specs.Prelude.{◌≡◌, map, IfOk, length};
ghost use Rattle.std.specs.List.Sorted.{IsPermutation, IsSortedBy};
ghost use Rattle.std.specs.List.{range_with_len};
ghost use Rattle.mk_plan_check.specs.inner.Marks.{label_of, mark_order, second_order, comes_first, way_label, source_label, target_label, name_label};

use crate::parts::{eid_of, owner};
use mk_base::Mem;
use mk_plan::{Conn, Plan};
use std::alloc::Global;
use std::cmp::Ordering;

// The numbers, the text and the flag of a connection or an entity.
#[derive(Clone, Copy)]
pub struct Mark<'a> {
    pub first: usize,
    pub second: usize,
    pub text: &'a [u8],
    pub flag: bool,
}

// The ways of the connections: source, target and target attribute.
pub fn ways<'a>(alloc: Global, plan: &'a Plan) -> Result<Vec<Mark<'a>>, Mem>
    ensures { IfOk result (λ marks. map label_of marks.items ≡ map way_label plan.now.conns) }
{
    let mut marks = Vec::with_capacity(alloc, plan.conns.len())?;
    for conn in plan.conns.as_slice() {
        marks.push(way(conn))?;
    }
    Ok(marks)
}

// The sources of the connections, and whether they persist.
pub fn sources<'a>(alloc: Global, plan: &'a Plan) -> Result<Vec<Mark<'a>>, Mem>
    ensures { IfOk result (λ marks. map label_of marks.items ≡ map source_label plan.now.conns) }
{
    let mut marks = Vec::with_capacity(alloc, plan.conns.len())?;
    for conn in plan.conns.as_slice() {
        marks.push(source(conn))?;
    }
    Ok(marks)
}

// The targets of the connections, and whether they trigger.
pub fn targets<'a>(alloc: Global, plan: &'a Plan) -> Result<Vec<Mark<'a>>, Mem>
    ensures { IfOk result (λ marks. map label_of marks.items ≡ map target_label plan.now.conns) }
{
    let mut marks = Vec::with_capacity(alloc, plan.conns.len())?;
    for conn in plan.conns.as_slice() {
        marks.push(target(conn))?;
    }
    Ok(marks)
}

// The names of the entities, each with its simulator.
pub fn names<'a>(alloc: Global, plan: &'a Plan) -> Result<Vec<Mark<'a>>, Mem>
    ensures { IfOk result (λ marks. map label_of marks.items
        ≡ map (name_label plan.now) (range_with_len 0 (length plan.now.entities))) }
{
    let mut marks = Vec::with_capacity(alloc, plan.entities.len())?;
    for entity in 0..plan.entities.len() {
        marks.push(name(plan, entity))?;
    }
    Ok(marks)
}

fn way<'a>(conn: &'a Conn) -> Mark<'a>
    ensures { label_of result ≡ way_label conn.now }
{
    Mark {
        first: conn.from as usize,
        second: conn.to as usize,
        text: conn.to_attr.bytes(),
        flag: false,
    }
}

fn source<'a>(conn: &'a Conn) -> Mark<'a>
    ensures { label_of result ≡ source_label conn.now }
{
    Mark {
        first: conn.from as usize,
        second: 0,
        text: conn.from_attr.bytes(),
        flag: conn.persistent,
    }
}

fn target<'a>(conn: &'a Conn) -> Mark<'a>
    ensures { label_of result ≡ target_label conn.now }
{
    Mark {
        first: conn.to as usize,
        second: 0,
        text: conn.to_attr.bytes(),
        flag: conn.triggering,
    }
}

fn name<'a>(plan: &'a Plan, entity: usize) -> Mark<'a>
    ensures { label_of result ≡ name_label plan.now entity }
{
    Mark {
        first: owner(plan, entity),
        second: 0,
        text: eid_of(plan, entity),
        flag: false,
    }
}

// Sorts the marks by number, number and text.
pub fn sort(marks: &mut Vec<Mark>)
    ensures permuted { IsPermutation marks.old.items marks.new.items }
    ensures sorted { IsSortedBy comes_first marks.new.items }
{
    marks.sort_unstable_by(|one, other| mark_order(one, other));
}

fn mark_order(one: &Mark, other: &Mark) -> Ordering
    ensures { result ≡ mark_order one.now other.now }
{
    match one.first.cmp(&other.first) {
        Ordering::Less => Ordering::Less,
        Ordering::Equal => second_order(one, other),
        Ordering::Greater => Ordering::Greater,
    }
}

// The order of marks with the same first number.
fn second_order(one: &Mark, other: &Mark) -> Ordering
    ensures { result ≡ second_order one.now other.now }
{
    match one.second.cmp(&other.second) {
        Ordering::Less => Ordering::Less,
        Ordering::Equal => one.text.cmp(other.text),
        Ordering::Greater => Ordering::Greater,
    }
}
