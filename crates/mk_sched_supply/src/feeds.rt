//! What each simulator is wanted to give, and where its triggering connections find it.
ghost use Rattle.std.specs.Prelude.{◌≡◌, ◌<◌, ◌+◌, length, IfOk, OnOk, Some, slice_get};
ghost use Rattle.mk_base.specs.Lists.{IsIn};
ghost use Rattle.mk_plan.specs.declared.Want.{Want};
ghost use Rattle.mk_plan.specs.Plans.{RefersInside};
ghost use Rattle.mk_plan.specs.Turns.{want_order};
ghost use Rattle.std.specs.List.Sorted.{IsStrictlySortedBy, IsBinarySearchResult, IsSearchInRange};
ghost use Rattle.mk_sched_supply.specs.inner.Making.{AreFeedsOf, HasNoTriggers, names_of};

use mk_base::{List, Mem, Text};
use mk_plan::{Conn, Plan, Want};
use mk_plan_judge::wants_of_all;
use std::alloc::Global;
use std::cmp::Ordering;

// What a simulator is wanted to give, and for each of its triggering connections in plan order the place among these
// wants of what it takes.
#[derive(Drop)]
pub struct Feed {
    pub wants: List<Want>,
    pub triggers: Vec<usize>,
}

// The feeds of all simulators.
pub fn feeds_of(alloc: Global, plan: &Plan) -> Result<Vec<Feed>, Mem>
    requires references { RefersInside plan.now }
    ensures { IfOk result (λ feeds. AreFeedsOf plan.now (length plan.now.conns) feeds.items) }
{
    let mut feeds = no_triggers(alloc, plan)?;
    for (place, conn) in plan.conns.as_slice().iter().enumerate() {
        add_conn(plan, &mut feeds, place, conn)?;
    }
    Ok(feeds)
}

// The feeds of all simulators before any connection.
fn no_triggers(alloc: Global, plan: &Plan) -> Result<Vec<Feed>, Mem>
    requires references { RefersInside plan.now }
    ensures { IfOk result (λ feeds. HasNoTriggers plan.now feeds.items) }
{
    let mut feeds = Vec::with_capacity(alloc, plan.sims.len())?;
    for wants in wants_of_all(alloc, plan)? {
        feeds.push(Feed {
            wants,
            triggers: Vec::new(alloc),
        })?;
    }
    Ok(feeds)
}

// Adds the place of what a connection takes, if it triggers.
fn add_conn(plan: &Plan, feeds: &mut Vec<Feed>, place: usize, conn: &Conn) -> Result<(), Mem>
    requires references { RefersInside plan.now }
    requires there { slice_get plan.now.conns place ≡ Some conn.now }
    requires feeds { AreFeedsOf plan.now place feeds.old.items }
    ensures { OnOk result (AreFeedsOf plan.now (place + 1) feeds.new.items) }
{
    if conn.triggering {
        let eid = &plan.entities.at(conn.from as usize).eid;
        let feed = &mut feeds[plan.owner(conn.from).0 as usize];
        let trigger = place_of(feed.wants.as_slice(), eid, &conn.from_attr);
        feed.triggers.push(trigger)?;
    }
    Ok(())
}

// The place of a want among sorted ones, which have it.
fn place_of(wants: &[Want], eid: &Text, attr: &Text) -> usize
    ensures { IsStrictlySortedBy want_order wants.now → IsIn (names_of eid.now attr.now) wants.now
        → slice_get wants.now result ≡ Some (names_of eid.now attr.now) }
{
    match search(wants, eid, attr) {
        Ok(place) => place,
        Err(place) => place,
    }
}

// Where the want stands, or else the place before which it belongs.
fn search(wants: &[Want], eid: &Text, attr: &Text) -> Result<usize, usize>
    ensures within { IsSearchInRange result (length wants.now) }
    ensures found { IsBinarySearchResult
        (λ w. want_order w (names_of eid.now attr.now)) wants.now result }
{
    wants.binary_search_by(|want| order_of(want, eid, attr))
}

// By the entity's name, then the attribute's, each in byte order.
fn order_of(want: &Want, eid: &Text, attr: &Text) -> Ordering
    ensures { result ≡ want_order want.now (names_of eid.now attr.now) }
{
    want.eid
        .bytes()
        .cmp(eid.bytes())
        .then_with(|| want.attr.bytes().cmp(attr.bytes()))
}
