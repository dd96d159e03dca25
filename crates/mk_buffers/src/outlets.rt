//! Outlets: the attributes that connections take, by simulator, entity and attribute, each with its delays and its
//! outputs.
ghost use Rattle.mk_base.specs.Lists.{IsIn};
ghost use Rattle.mk_base.specs.Tiers.{HasWidth, latest_time};
ghost use Rattle.std.specs.Prelude.{All, ◌≡◌, true, false, ℕ, ◌+◌, ◌-◌, ◌<◌, ◌≤◌, pos, ◌≤ℤ◌, List, [], ◌∷◌, ◌++◌, OnOk, OnErr, IfOk, length, Some, slice_get};
ghost use Rattle.std.specs.List.Sorted.{IsPermutation, IsNonDecreasingBy};
ghost use Rattle.mk_plan.specs.declared.Plan.{Plan};
ghost use Rattle.mk_plan.specs.Plans.{RefersInside, HasDistinctNames};
ghost use Rattle.mk_buffers.specs.declared.outlets.Source.{Source};
ghost use Rattle.mk_buffers.specs.declared.outlets.Outlet.{Outlet};
ghost use Rattle.mk_buffers.specs.Held.{has_key, is_key};
ghost use Rattle.mk_buffers.specs.inner.Building.{AreRising, IsOutletOf, IsSource, HasSources, AreSources, AreOutlets, AreParts, IsPartOf, IsNext, HasReached, HasAdded, HasVia, HasJoined, reached, source_order};
ghost use Rattle.mk_base.specs.Limits.{greatest_tier};

use crate::sorted::or_texts;
use mk_base::{Datum, Mem, Text, Tier, Via};
use mk_buffers_log::{Delay, Log, Made};
use mk_plan::{Conn, Plan};
use std::alloc::Global;
use std::cmp::Ordering;

// An attribute of an entity that some connection takes, how its connections delay it, and its outputs that are kept.
#[derive(Drop)]
pub struct Outlet {
    pub sim: usize,
    pub entity: u32,
    pub attr: Text,
    pub vias: Vec<Delay>,
    pub log: Log,
}

impl Outlet {
    ghost use Rattle.mk_buffers.specs.inner.Held.{HasTaken, IsThinned};
    ghost use Rattle.mk_buffers_log.specs.Logs.{IsFew, StaysFew};

    // Takes one more output, and gives up what no question at or after the mark can reach.
    pub fn take_in(&mut self, at: Tier, value: Datum, until: &i64, mark: Tier) -> Result<(), Mem>
        requires early { pos 0 ≤ℤ at.time }
        requires late { at.time ≤ℤ latest_time }
        requires low { at.tier ≤ greatest_tier }
        ensures ok { OnOk result
            (HasTaken until.now mark (record { at = at; value = value }) self.old self.new) }
        ensures few { OnOk result (IsFew self.new.vias.items until.now mark self.new.log) }
        ensures err { OnErr result (self.new ≡ self.old) }
    {
        self.log.push(Made::new(at, value))?;
        self.log.forget(self.vias.as_slice(), until, mark);
        Ok(())
    }

    // Gives up what no question at or after the mark can reach, and finds the mark at which it has to be looked at
    // again.
    pub fn give_up(&mut self, until: &i64, mark: Tier) -> Option<Tier>
        ensures thinned { IsThinned until.now mark self.old self.new }
        ensures few { IsFew self.new.vias.items until.now mark self.new.log }
        ensures next { StaysFew self.new.vias.items until.now mark result self.new.log }
    {
        self.log.forget(self.vias.as_slice(), until, mark);
        self.next_mark(until, mark)
    }

    // The mark at which it has to be looked at again, if there is one.
    pub fn next_mark(&self, until: &i64, mark: Tier) -> Option<Tier>
        ensures { IsFew self.now.vias.items until.now mark self.now.log
            → StaysFew self.now.vias.items until.now mark result self.now.log }
    {
        self.log.next_mark(self.vias.as_slice(), until, mark)
    }
}

// Where the outlets of a simulator or an entity stand among all: from the first on, before the end.
#[derive(Clone, Copy)]
pub struct Part {
    pub first: usize,
    pub end: usize,
}

// A connection's source, for sorting.
#[derive(Clone, Copy)]
pub struct Source<'a> {
    sim: u32,
    eid: &'a Text,
    attr: &'a Text,
    entity: u32,
    via: Via,
    place: usize,
}

// The outlets of a plan by simulator, eid and attribute, for each connection the place of its outlet, and where those
// of each simulator and of each entity stand.
#[derive(Drop)]
pub struct Outlets {
    pub all: Vec<Outlet>,
    pub of_conn: Vec<usize>,
    pub of_sim: Vec<Part>,
    pub of_entity: Vec<Part>,
}

// The outlets of a plan.
pub fn outlets_of(alloc: Global, plan: &Plan) -> Result<Outlets, Mem>
    requires references { RefersInside plan.now }
    requires names { HasDistinctNames plan.now }
    requires widths { All (λ c. HasWidth c.via) plan.now.conns }
    ensures { IfOk result (λ o. (done : List Source)
        × HasSources plan.now (length plan.now.conns) done × AreOutlets plan.now done done o
        × AreParts (length plan.now.sims) o.all.items o.of_sim.items) }
{
    let made = joined(alloc, plan)?;
    let of_sim = parts_of(alloc, plan.sims.len(), made.all.as_slice())?;
    Ok(made.with_parts(of_sim))
}

// The outlets of a plan, where it isn't known yet at which of them each simulator's stand.
fn joined(alloc: Global, plan: &Plan) -> Result<Outlets, Mem>
    requires references { RefersInside plan.now }
    requires names { HasDistinctNames plan.now }
    requires widths { All (λ c. HasWidth c.via) plan.now.conns }
    ensures { IfOk result (λ o. (done : List Source)
        × HasSources plan.now (length plan.now.conns) done × AreOutlets plan.now done done o) }
{
    let sources = sources_of(alloc, plan)?;
    filled(alloc, plan, sources.as_slice())
}

// The outlets of sorted sources.
fn filled(alloc: Global, plan: &Plan, sources: &[Source]) -> Result<Outlets, Mem>
    requires references { RefersInside plan.now }
    requires names { HasDistinctNames plan.now }
    requires widths { All (λ c. HasWidth c.via) plan.now.conns }
    requires sources { AreSources plan.now sources.now }
    ensures { IfOk result (λ o. AreOutlets plan.now sources.now sources.now o) }
{
    let mut made = no_outlets(alloc, plan)?;
    for source in sources {
        made.add(alloc, source)?;
    }
    Ok(made)
}

// No outlet, and no connection and no entity that has one.
fn no_outlets(alloc: Global, plan: &Plan) -> Result<Outlets, Mem>
    ensures { IfOk result (λ o. AreOutlets plan.now [] [] o) }
{
    let none = Part { first: 0, end: 0 };
    let of_conn = vec![in alloc; 0; plan.conns.len()]?;
    let of_entity = vec![in alloc; none; plan.entities.len()]?;
    Ok(Outlets {
        all: Vec::new(alloc),
        of_conn,
        of_sim: Vec::new(alloc),
        of_entity,
    })
}

// Where the outlets of each simulator stand.
fn parts_of(alloc: Global, sims: usize, all: &[Outlet]) -> Result<Vec<Part>, Mem>
    requires { IsNonDecreasingBy (λ o. o.sim) all.now }
    ensures { IfOk result (λ parts. AreParts sims all.now parts.items) }
{
    let mut parts = Vec::with_capacity(alloc, sims)?;
    for sim in 0..sims {
        parts.push(part_of(all, sim))?;
    }
    Ok(parts)
}

// Where the outlets of a simulator stand.
fn part_of(all: &[Outlet], sim: usize) -> Part
    requires { IsNonDecreasingBy (λ o. o.sim) all.now }
    ensures { IsPartOf all.now sim result }
{
    Part {
        first: all.partition_point(|outlet| outlet.sim < sim),
        end: all.partition_point(|outlet| outlet.sim <= sim),
    }
}

impl Outlets {
    // The same, with these parts of the simulators.
    fn with_parts(self, of_sim: Vec<Part>) -> Outlets
        ensures { result
            ≡ record {
              all = self.all;
              of_conn = self.of_conn;
              of_sim = of_sim;
              of_entity = self.of_entity;
            } }
    {
        Outlets {
            all: self.all,
            of_conn: self.of_conn,
            of_sim,
            of_entity: self.of_entity,
        }
    }

    // Gives a connection the last outlet, where that is its source's, or else a new one.
    fn add(&mut self, alloc: Global, source: &Source) -> Result<(), Mem>
        requires { HasWidth source.now.via }
        ensures { (P : Plan) (done : List Source) → AreOutlets P done done self.old
            → IsNext P done source.now
            → OnOk result (AreOutlets P (done ++ source.now ∷ []) (done
            ++ source.now ∷ []) self.new) }
    {
        if !self.is_last(source) {
            self.add_outlet(alloc, source)?;
        }
        self.join(source)
    }

    // Gives the source's connection the last outlet.
    fn join(&mut self, source: &Source) -> Result<(), Mem>
        requires { HasWidth source.now.via }
        ensures { (n : ℕ) (o : Outlet) → length self.old.all.items ≡ n + 1
            → slice_get self.old.all.items n ≡ Some o
            → OnOk result (HasJoined source.now self.old self.new n o) }
    {
        let count = self.all.len();
        if count > 0 {
            add_via(&mut self.all[count - 1], Delay::of(source.via))?;
            if source.place < self.of_conn.len() {
                self.of_conn[source.place] = count - 1;
            }
        }
        Ok(())
    }

    // Adds an outlet for the source.
    fn add_outlet(&mut self, alloc: Global, source: &Source) -> Result<(), Mem>
        ensures { OnOk result (HasAdded source.now self.old self.new) }
    {
        let place = self.all.len();
        self.all.push(outlet_of(alloc, source)?)?;
        let end = self.all.len();
        reach(&mut self.of_entity, source.entity as usize, place, end);
        Ok(())
    }

    // Whether the last outlet is the source's.
    fn is_last(&self, source: &Source) -> bool
        ensures { result ≡ has_key self.now.all.items source.now.entity source.now.attr.now
            (length self.now.all.items - 1) }
    {
        let count = self.all.len();
        count > 0 && has_key(self.all.as_slice(), source.entity, source.attr, count - 1)
    }
}

// An outlet of the source, without a delay and without an output.
fn outlet_of(alloc: Global, source: &Source) -> Result<Outlet, Mem>
    ensures is { IfOk result (λ o. IsOutletOf source.now o) }
    ensures vias { IfOk result (λ o. o.vias.items ≡ []) }
{
    Ok(Outlet {
        sim: source.sim as usize,
        entity: source.entity,
        attr: source.attr.copy()?,
        vias: Vec::new(alloc),
        log: Log::new(alloc),
    })
}

// Whether the outlet at the place is that of this attribute.
pub fn has_key(outlets: &[Outlet], entity: u32, attr: &Text, place: usize) -> bool
    ensures { result ≡ has_key outlets.now entity attr.now place }
{
    match outlets.get(place) {
        Some(outlet) => is_key(outlet, entity, attr),
        None => false,
    }
}

// Whether the outlet is that of this attribute.
fn is_key(outlet: &Outlet, entity: u32, attr: &Text) -> bool
    ensures { result ≡ is_key entity attr.now outlet.now }
{
    outlet.entity == entity && outlet.attr.bytes() == attr.bytes()
}

// Adds a delay, if it isn't there.
fn add_via(outlet: &mut Outlet, via: Delay) -> Result<(), Mem>
    ensures { OnOk result (HasVia via outlet.old outlet.new) }
{
    if !has_via(outlet.vias.as_slice(), via) {
        outlet.vias.push(via)?;
    }
    Ok(())
}

// Whether the delay is among these.
fn has_via(vias: &[Delay], via: Delay) -> bool
    ensures there { result ≡ true → IsIn via vias.now }
    ensures none { result ≡ false → IsIn via vias.now → ⊥ }
{
    for old in vias {
        if old.via() == via.via() {
            return true;
        }
    }
    false
}

// The part reaches up to the end, and begins at the place if it was empty.
fn reach(parts: &mut Vec<Part>, part: usize, place: usize, end: usize)
    ensures { HasReached parts.old.items parts.new.items part place end }
{
    if part < parts.len() {
        parts[part] = reached(parts[part], place, end);
    }
}

fn reached(old: Part, place: usize, end: usize) -> Part
    ensures { result ≡ reached old place end }
{
    let first = if old.first == old.end {
        place
    } else {
        old.first
    };
    Part { first, end }
}

// The connections' sources, sorted.
fn sources_of<'a>(alloc: Global, plan: &'a Plan) -> Result<Vec<Source<'a>>, Mem>
    requires references { RefersInside plan.now }
    ensures { IfOk result (λ sources. AreSources plan.now sources.items) }
{
    let mut sources = Vec::with_capacity(alloc, plan.conns.len())?;
    for place in 0..plan.conns.len() {
        sources.push(source_of(plan, plan.conns.at(place), place))?;
    }
    sort(&mut sources)?;
    Ok(sources)
}

fn sort(sources: &mut Vec<Source>) -> Result<(), Mem>
    ensures { OnOk result (IsPermutation sources.old.items sources.new.items
        × AreRising source_order sources.new.items) }
{
    sources.sort_by(|first, second| source_order(first, second))?;
    Ok(())
}

fn source_of<'a>(plan: &'a Plan, conn: &'a Conn, place: usize) -> Source<'a>
    requires references { RefersInside plan.now }
    requires from { conn.now.from < length plan.now.entities }
    ensures { slice_get plan.now.conns place ≡ Some conn.now → IsSource plan.now result
        × (result.place ≡ place) }
{
    Source {
        sim: plan.owner(conn.from).0,
        eid: &plan.entities.at(conn.from as usize).eid,
        attr: &conn.from_attr,
        entity: conn.from,
        via: conn.via,
        place,
    }
}

// By simulator, then eid, then attribute.
fn source_order(first: &Source, second: &Source) -> Ordering
    ensures { result ≡ source_order first.now second.now }
{
    let eids = or_texts(first.sim.cmp(&second.sim), first.eid, second.eid);
    or_texts(eids, first.attr, second.attr)
}
