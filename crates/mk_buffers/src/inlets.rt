//! Inlets: a plan's connections as their targets see them, sorted as the inputs of a step are.
ghost use Rattle.mk_base.specs.Tiers.{HasWidth};
ghost use Rattle.std.specs.Prelude.{All, ◌≡◌, ℕ, ◌<◌, ◌^◌, ◌++◌, ◌∷◌, [], List, length, Some, slice_get, IfOk, OnOk};
ghost use Rattle.std.specs.List.Sorted.{IsPermutation};
ghost use Rattle.mk_plan.specs.declared.Plan.{Plan};
ghost use Rattle.mk_plan.specs.Plans.{RefersInside, HasDistinctNames, HasOneConnectionEach, full_id};
ghost use Rattle.mk_buffers.specs.declared.inlets.Target.{Target};
ghost use Rattle.mk_buffers.specs.inner.Building.{AreRising};
ghost use Rattle.mk_buffers.specs.Held.{input_of};
ghost use Rattle.mk_buffers.specs.inner.Listing.{IsTarget, AreTargets, IsInletOf, AreListed, ComesNext, target_order};

use crate::names::full_id;
use crate::sorted::{input_named, or_texts};
use mk_base::{Datum, Mem, Text};
use mk_buffers_log::Delay;
use mk_plan::{Conn, Input, Plan};
use std::alloc::Global;
use std::cmp::Ordering;

// A connection as its target sees it: what its inputs are called, and where their values come from.
#[derive(Drop)]
pub struct Inlet {
    pub eid: Text,
    pub attr: Text,
    pub source: Text,
    pub outlet: usize,
    pub via: Delay,
    pub persistent: bool,
    pub initial: Option<Datum>,
}

// A connection's target, for sorting.
#[derive(Clone, Copy)]
struct Target<'a> {
    sim: u32,
    eid: &'a Text,
    source: &'a Text,
    conn: &'a Conn,
    outlet: usize,
}

// The inlets of each simulator, sorted by eid, attribute and source.
pub fn inlets_of(alloc: Global, plan: &Plan, outlet_of: &[usize]) -> Result<Vec<Vec<Inlet>>, Mem>
    requires references { RefersInside plan.now }
    requires few { length plan.now.entities < 2 ^ 32 }
    requires names { HasDistinctNames plan.now }
    requires once { HasOneConnectionEach plan.now }
    requires widths { All (λ c. HasWidth c.via) plan.now.conns }
    requires outlets { length outlet_of.now ≡ length plan.now.conns }
    ensures { IfOk result (λ v. (done : List Target) × AreTargets plan.now outlet_of.now done
        × AreListed (length plan.now.sims) done v.items) }
{
    let names = names_of(alloc, plan)?;
    let targets = targets_of(alloc, plan, names.as_slice(), outlet_of)?;
    listed(alloc, plan, targets.as_slice())
}

// The inlets of sorted targets, in a list for each simulator.
fn listed(alloc: Global, plan: &Plan, targets: &[Target]) -> Result<Vec<Vec<Inlet>>, Mem>
    requires widths { All (λ c. HasWidth c.via) plan.now.conns }
    requires targets { (outlets : List ℕ) × AreTargets plan.now outlets targets.now }
    ensures { IfOk result (λ v. AreListed (length plan.now.sims) targets.now v.items) }
{
    let mut inlets = empty_lists(alloc, plan.sims.len())?;
    for target in targets {
        add_inlet(&mut inlets, target)?;
    }
    Ok(inlets)
}

// So many lists without inlets.
fn empty_lists(alloc: Global, count: usize) -> Result<Vec<Vec<Inlet>>, Mem>
    ensures { IfOk result (λ v. AreListed count [] v.items) }
{
    let mut lists = Vec::with_capacity(alloc, count)?;
    while lists.len() < count {
        lists.push(Vec::new(alloc))?;
    }
    Ok(lists)
}

// Adds the inlet of a target to those of its simulator.
fn add_inlet(inlets: &mut Vec<Vec<Inlet>>, target: &Target) -> Result<(), Mem>
    requires { HasWidth target.now.conn.now.via }
    ensures { (n : ℕ) (done : List Target) → AreListed n done inlets.old.items
        → ComesNext done target.now
        → OnOk result (AreListed n (done ++ target.now ∷ []) inlets.new.items) }
{
    let inlet = inlet_of(target)?;
    let sim = target.sim as usize;
    if sim < inlets.len() {
        inlets[sim].push(inlet)?;
    }
    Ok(())
}

// The full ids of the entities.
fn names_of(alloc: Global, plan: &Plan) -> Result<Vec<Text>, Mem>
    requires references { RefersInside plan.now }
    requires few { length plan.now.entities < 2 ^ 32 }
    ensures count { IfOk result (λ names. length names.items ≡ length plan.now.entities) }
    ensures names { IfOk result (λ names. (e : ℕ) (x : List ℕ) → slice_get names.items e ≡ Some x
        → x ≡ full_id plan.now e) }
{
    let mut names = Vec::with_capacity(alloc, plan.entities.len())?;
    for entity in 0..plan.entities.len() {
        names.push(full_id(alloc, plan, entity as u32)?)?;
    }
    Ok(names)
}

fn targets_of<'a>(
    alloc: Global,
    plan: &'a Plan,
    names: &'a [Text],
    outlet_of: &[usize],
) -> Result<Vec<Target<'a>>, Mem>
    requires references { RefersInside plan.now }
    requires distinct { HasDistinctNames plan.now }
    requires once { HasOneConnectionEach plan.now }
    requires names { length names.now ≡ length plan.now.entities }
    requires full { (e : ℕ) (x : List ℕ) → slice_get names.now e ≡ Some x → x ≡ full_id plan.now e }
    requires outlets { length outlet_of.now ≡ length plan.now.conns }
    ensures { IfOk result (λ targets. AreTargets plan.now outlet_of.now targets.items) }
{
    let mut targets = Vec::with_capacity(alloc, plan.conns.len())?;
    for place in 0..plan.conns.len() {
        targets.push(target_of(plan, plan.conns.at(place), names, outlet_of[place]))?;
    }
    sort(&mut targets)?;
    Ok(targets)
}

fn sort(targets: &mut Vec<Target>) -> Result<(), Mem>
    ensures { OnOk result (IsPermutation targets.old.items targets.new.items
        × AreRising target_order targets.new.items) }
{
    targets.sort_by(|first, second| target_order(first, second))?;
    Ok(())
}

fn target_of<'a>(plan: &'a Plan, conn: &'a Conn, names: &'a [Text], outlet: usize) -> Target<'a>
    requires references { RefersInside plan.now }
    requires names { length names.now ≡ length plan.now.entities }
    requires full { (e : ℕ) (x : List ℕ) → slice_get names.now e ≡ Some x → x ≡ full_id plan.now e }
    requires from { conn.now.from < length plan.now.entities }
    requires to { conn.now.to < length plan.now.entities }
    ensures { IsTarget plan.now conn.now outlet result }
{
    Target {
        sim: plan.owner(conn.to).0,
        eid: &plan.entities.at(conn.to as usize).eid,
        source: &names[conn.from as usize],
        conn,
        outlet,
    }
}

fn inlet_of(target: &Target) -> Result<Inlet, Mem>
    requires { HasWidth target.now.conn.now.via }
    ensures { IfOk result (λ i. IsInletOf target.now i) }
{
    Ok(Inlet {
        eid: target.eid.copy()?,
        attr: target.conn.to_attr.copy()?,
        source: target.source.copy()?,
        outlet: target.outlet,
        via: Delay::of(target.conn.via),
        persistent: target.conn.persistent,
        initial: initial_of(target.conn)?,
    })
}

// The initial value of a connection, if it has one.
fn initial_of(conn: &Conn) -> Result<Option<Datum>, Mem>
    ensures { IfOk result (λ o. o ≡ conn.now.initial) }
{
    match &conn.initial {
        Some(value) => Ok(Some(value.copy()?)),
        None => Ok(None),
    }
}

// By simulator, then eid, then attribute, then source.
fn target_order(first: &Target, second: &Target) -> Ordering
    ensures { result ≡ target_order first.now second.now }
{
    let eids = or_texts(first.sim.cmp(&second.sim), first.eid, second.eid);
    let attrs = or_texts(eids, &first.conn.to_attr, &second.conn.to_attr);
    or_texts(attrs, first.source, second.source)
}

// The input that an inlet makes of a value.
pub fn input_of(inlet: &Inlet, value: &Datum) -> Result<Input, Mem>
    ensures { IfOk result (λ n. n ≡ input_of inlet.now value.now) }
{
    input_named(&inlet.eid, &inlet.attr, &inlet.source, value)
}
