//! What each GetData asks of each simulator, from one pass over all connections.
ghost use Rattle.std.specs.Prelude.{◌≡◌, ◌<◌, ◌-◌, ℕ, List, [], true, not, length, Some, IfOk, OnOk, unwrap_or, option_map, slice_get};
ghost use Rattle.std.specs.Ordering.{is_eq, is_lt};
ghost use Rattle.std.specs.List.Sorted.{IsPermutation, IsSortedBy, IsStrictlySortedBy};
ghost use Rattle.mk_base.specs.Lists.{IsIn, put};
ghost use Rattle.mk_plan.specs.declared.Want.{Want};
ghost use Rattle.mk_plan.specs.Plans.{RefersInside};
ghost use Rattle.mk_plan.specs.Turns.{wanted, want_order};
ghost use Rattle.mk_plan_judge.specs.declared.all_wants.Taking.{Taking};
ghost use Rattle.mk_plan_judge.specs.inner.Takings.{AreTakings, AreWantsOf, IsTakenBy, NoneIsBehind, taking_order, want_taken, with_want};

use mk_base::{List, Mem, Text};
use mk_plan::{Conn, Plan, Want};
use std::alloc::Global;
use std::cmp::Ordering;

// What a connection takes, and from which simulator, for sorting.
#[derive(Clone, Copy)]
struct Taking<'a> {
    sim: u32,
    eid: &'a Text,
    attr: &'a Text,
}

/// What each GetData asks of each simulator: a list for each, in the plan's order, with the attributes that some
/// connection takes from its entities, each once, in byte order of the entity's name and then of the attribute's. All
/// connections are gone through once. Fails for want of memory alone.
pub fn wants_of_all(alloc: Global, plan: &Plan) -> Result<Vec<List<Want>>, Mem>
    requires references { RefersInside plan.now }
    ensures count { IfOk result (λ lists. length lists.items ≡ length plan.now.sims) }
    ensures each { IfOk result (λ lists. (i : ℕ) (wants : List Want)
        → slice_get lists.items i ≡ Some wants → wants ≡ wanted plan.now i) }
{
    let takings = takings_of(alloc, plan)?;
    listed(alloc, plan.sims.len(), takings.as_slice())
}

// What all connections take, sorted.
fn takings_of<'a>(alloc: Global, plan: &'a Plan) -> Result<Vec<Taking<'a>>, Mem>
    requires references { RefersInside plan.now }
    ensures all { IfOk result (λ takings. AreTakings plan.now plan.now.conns takings.items) }
    ensures sorted { IfOk result
        (λ takings. IsSortedBy (λ t u. is_lt (taking_order t u)) takings.items) }
{
    let mut takings = Vec::with_capacity(alloc, plan.conns.len())?;
    for conn in plan.conns.as_slice() {
        takings.push(taking_of(plan, conn))?;
    }
    sort(&mut takings)?;
    Ok(takings)
}

// What one connection takes.
fn taking_of<'a>(plan: &'a Plan, conn: &'a Conn) -> Taking<'a>
    requires references { RefersInside plan.now }
    requires from { conn.now.from < length plan.now.entities }
    ensures { IsTakenBy plan.now conn.now result }
{
    Taking {
        sim: plan.owner(conn.from).0,
        eid: &plan.entities.at(conn.from as usize).eid,
        attr: &conn.from_attr,
    }
}

fn sort(takings: &mut Vec<Taking>) -> Result<(), Mem>
    ensures { OnOk result (IsPermutation takings.old.items takings.new.items
        × IsSortedBy (λ t u. is_lt (taking_order t u)) takings.new.items) }
{
    takings.sort_by(|first, second| taking_order(first, second))?;
    Ok(())
}

// By the entity's name, then the attribute's, each in byte order.
fn taking_order(first: &Taking, second: &Taking) -> Ordering
    ensures { result ≡ taking_order first.now second.now }
{
    first
        .eid
        .bytes()
        .cmp(second.eid.bytes())
        .then_with(|| first.attr.bytes().cmp(second.attr.bytes()))
}

// What is taken of each of so many simulators, by sorted takings.
fn listed(alloc: Global, count: usize, takings: &[Taking]) -> Result<Vec<List<Want>>, Mem>
    requires there { (t : Taking) → IsIn t takings.now → t.sim < count }
    requires sorted { IsSortedBy (λ t u. is_lt (taking_order t u)) takings.now }
    ensures { IfOk result (λ lists. AreWantsOf count takings.now lists.items) }
{
    let mut lists = empty_lists(alloc, count)?;
    for taking in takings {
        add_want(&mut lists, taking)?;
    }
    Ok(lists)
}

// So many lists without wants.
fn empty_lists(alloc: Global, count: usize) -> Result<Vec<List<Want>>, Mem>
    ensures { IfOk result (λ lists. AreWantsOf count [] lists.items) }
{
    let mut lists = Vec::with_capacity(alloc, count)?;
    for _ in 0..count {
        lists.push(List::new(alloc))?;
    }
    Ok(lists)
}

// Adds what is taken to what is wanted of its simulator.
fn add_want(lists: &mut Vec<List<Want>>, taking: &Taking) -> Result<(), Mem>
    requires there { taking.now.sim < length lists.old.items }
    requires last { (wants : List Want) → slice_get lists.old.items taking.now.sim ≡ Some wants
        → IsStrictlySortedBy want_order wants × NoneIsBehind (want_taken taking.now) wants }
    ensures { OnOk result (lists.new.items ≡ with_want taking.now lists.old.items) }
{
    put_last(&mut lists[taking.sim as usize], taking)
}

// Puts what is taken behind all other wants, where none of them comes after it; an equal one takes no second place.
fn put_last(wants: &mut List<Want>, taking: &Taking) -> Result<(), Mem>
    requires sorted { IsStrictlySortedBy want_order wants.old }
    requires last { NoneIsBehind (want_taken taking.now) wants.old }
    ensures { OnOk result (wants.new ≡ put want_order (want_taken taking.now) wants.old) }
{
    if is_new(wants.as_slice(), taking) {
        let want = want_of(taking)?;
        wants.push(want)?;
    }
    Ok(())
}

// Whether the last want, if there is one, is another one.
fn is_new(wants: &[Want], taking: &Taking) -> bool
    ensures { result ≡ unwrap_or
        (option_map (λ w. not (is_eq (want_order w (want_taken taking.now))))
        (slice_get wants.now (length wants.now - 1))) true }
{
    match wants.last() {
        Some(last) => !is_same(last, taking),
        None => true,
    }
}

fn is_same(want: &Want, taking: &Taking) -> bool
    ensures { result ≡ is_eq (want_order want.now (want_taken taking.now)) }
{
    want.eid.bytes() == taking.eid.bytes() && want.attr.bytes() == taking.attr.bytes()
}

// What is taken, as a want of its own.
fn want_of(taking: &Taking) -> Result<Want, Mem>
    ensures { IfOk result (λ want. want ≡ want_taken taking.now) }
{
    Ok(Want {
        eid: taking.eid.copy()?,
        attr: taking.attr.copy()?,
    })
}
