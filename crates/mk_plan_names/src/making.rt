//! How an index of names is made.
ghost use Rattle.std.specs.Prelude.{◌≡◌, ◌<◌, ◌^◌, [], length, IfOk, OnOk};
ghost use Rattle.mk_plan.specs.Plans.{HasDistinctNames, RefersInside};
ghost use Rattle.mk_plan_names.specs.inner.Making.{AreAttrsOf, AreFirstIds, ArePairsOf, HasSource};

use indexmap::IndexSet;
use mk_base::{List, Mem};
use mk_plan::{AsyncPair, Conn, Plan, full_id};
use std::alloc::Global;

// The full ids of a plan's entities, in order.
pub fn ids_of(alloc: Global, plan: &Plan) -> Result<IndexSet<String>, Mem>
    requires references { RefersInside plan.now }
    requires names { HasDistinctNames plan.now }
    requires few { length plan.now.entities < 2 ^ 32 }
    ensures { IfOk result (λ ids. AreFirstIds plan.now (length plan.now.entities) ids.keys) }
{
    let mut ids = IndexSet::new(alloc);
    for place in 0..plan.entities.len() {
        ids.insert(full_id(alloc, plan, place as u32)?)?;
    }
    Ok(ids)
}

// The attributes that connections take, by their entities.
pub fn attrs_of(alloc: Global, plan: &Plan) -> Result<Vec<IndexSet<String>>, Mem>
    requires { RefersInside plan.now }
    ensures { IfOk result (λ attrs. AreAttrsOf plan.now.conns attrs.items) }
{
    let mut attrs = empty_sets(alloc, plan.entities.len())?;
    for conn in plan.conns.as_slice() {
        add_source(alloc, &mut attrs, conn)?;
    }
    Ok(attrs)
}

// So many sets of no attributes.
fn empty_sets(alloc: Global, count: usize) -> Result<Vec<IndexSet<String>>, Mem>
    ensures count { IfOk result (λ sets. length sets.items ≡ count) }
    ensures empty { IfOk result (λ sets. AreAttrsOf [] sets.items) }
{
    let mut sets = Vec::with_capacity(alloc, count)?;
    while sets.len() < count {
        sets.push(IndexSet::new(alloc))?;
    }
    Ok(sets)
}

// Adds the source of a connection.
fn add_source(alloc: Global, attrs: &mut Vec<IndexSet<String>>, conn: &Conn) -> Result<(), Mem>
    requires { conn.now.from < length attrs.old.items }
    ensures { OnOk result (HasSource attrs.old.items conn.now attrs.new.items) }
{
    let set = &mut attrs[conn.from as usize];
    if !set.contains(conn.from_attr.as_str()) {
        set.insert(String::from_str(alloc, conn.from_attr.as_str())?)?;
    }
    Ok(())
}

// The numbers of the simulators of each pair.
pub fn pairs_of(alloc: Global, asyncs: &List<AsyncPair>) -> Result<IndexSet<(u32, u32)>, Mem>
    ensures { IfOk result (λ pairs. ArePairsOf asyncs.now pairs.keys) }
{
    let mut pairs = IndexSet::new(alloc);
    for pair in asyncs.as_slice() {
        pairs.insert((pair.from.0, pair.to.0))?;
    }
    Ok(pairs)
}
