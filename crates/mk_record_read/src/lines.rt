//! What each kind of line adds to the plan, to the messages that came, or to the steps that were asked for.
ghost use Rattle.std.specs.Prelude.{◌≡◌, Ok, Err, Some, OnOk, IfOk, IfErr, MatchOption, true, ◌&&◌, map, nat_abs, ◌∷◌, []};
ghost use Rattle.std.specs.List.{list_all};
ghost use Rattle.std.specs.Result.{result_ok};
ghost use Rattle.mk_message.specs.Messages.{message_in, tested};
ghost use Rattle.mk_base.specs.Trees.{is_in_range, items_in};
ghost use Rattle.mk_plan.specs.declared.Plan as plans;
ghost use Rattle.mk_record_read.specs.inner.Faults.{IsBeyond, IsFaultOf, IsMissing};
ghost use Rattle.mk_record_read.specs.inner.Lines.{conn_put, entity_put, model_put, run_put, sim_put};
ghost use Rattle.mk_record_read.specs.Fields.{is_below, misformed};
ghost use Rattle.mk_record_read.specs.Steps.{IsKnown};
ghost use Rattle.mk_record_read.specs.Lines.{run_fits, event_fits, sim_fits, entity_fits, with_run, with_sim, with_model, with_entity, with_way, with_conn, with_async, arrival_in, asked_in, step_asked, step_fits};
ghost use Rattle.mk_record_read.specs.Seen.{came};
ghost use Rattle.mk_record_read.specs.inner.Seen.{is_second};
ghost use Rattle.mk_base.specs.Limits.{most_entities};

use crate::faults::{LineFault, MISFORMED, OUT_OF_LIMITS};
use crate::fields::{
    bool_of, initial_of, is_from, kind_of, text_of, texts_of, via_of, way_of, whole_of, wholes_of,
};
use crate::kinds::Version;
use crate::saved::{Arrival, Asked};
use mk_base::{
    Datum, HIGHEST_RANK, Json, LATEST_END, List, MOST_ENTITIES, MOST_ENTRIES, MOST_LOOPS,
    MOST_REQUESTS, Mem, SimKind, SimNo, Text, Tier, Via,
};
use mk_message::take_tree;
use mk_plan::{AsyncPair, Conn, Message, Plan, PlanEntity, PlanModel, PlanSim};
use std::alloc::Global;

pub fn add_run(plan: &mut Plan, items: &[Json]) -> Result<(), LineFault>
    ensures ok { OnOk result (with_run plan.old items.now ≡ Ok plan.new) }
    ensures err { IfErr result (IsFaultOf (with_run plan.old items.now)) }
{
    match items {
        [until, loops, entries] => add_run_of(plan, until, loops, entries),
        _ => Err(MISFORMED),
    }
}

// The same where the line has as many fields as it needs.
fn add_run_of(plan: &mut Plan, until: &Json, loops: &Json, entries: &Json) -> Result<(), LineFault>
    ensures ok { OnOk result
        (with_run plan.old (until.now ∷ loops.now ∷ entries.now ∷ []) ≡ Ok plan.new) }
    ensures err { IfErr result
        (IsFaultOf (with_run plan.old (until.now ∷ loops.now ∷ entries.now ∷ []))) }
{
    let until = whole_of(until)?;
    let loops = whole_of(loops)?;
    let entries = whole_of(entries)?;
    put_run(plan, until, loops, entries)
}

// Takes the limits of a run, if they are within their own.
fn put_run(plan: &mut Plan, until: i128, loops: i128, entries: i128) -> Result<(), LineFault>
    ensures ok { OnOk result (run_put plan.old until loops entries ≡ Ok plan.new) }
    ensures err { IfErr result (IsFaultOf (run_put plan.old until loops entries)) }
{
    if !run_fits(until, loops, entries) {
        return Err(OUT_OF_LIMITS);
    }
    plan.until = until as i64;
    plan.loops = loops as u32;
    plan.entries = entries as u32;
    Ok(())
}

fn run_fits(until: i128, loops: i128, entries: i128) -> bool
    ensures { result ≡ run_fits until loops entries }
{
    is_from(1, i128::from(LATEST_END), until)
        && is_from(1, i128::from(MOST_LOOPS), loops)
        && is_from(1, i128::from(MOST_ENTRIES), entries)
}

pub fn add_sim(alloc: Global, plan: &mut Plan, items: &[Json]) -> Result<(), LineFault>
    ensures ok { OnOk result (with_sim plan.old items.now ≡ Ok plan.new) }
    ensures err { IfErr result (IsFaultOf (with_sim plan.old items.now)) }
{
    match items {
        [id, kind, first_id, rank, events] => {
            add_sim_of(alloc, plan, id, kind, first_id, rank, events)
        }
        _ => Err(MISFORMED),
    }
}

// The same where the line has as many fields as it needs.
fn add_sim_of(
    alloc: Global,
    plan: &mut Plan,
    id: &Json,
    kind: &Json,
    first_id: &Json,
    rank: &Json,
    events: &Json,
) -> Result<(), LineFault>
    ensures ok { OnOk result
        (with_sim plan.old (id.now ∷ kind.now ∷ first_id.now ∷ rank.now ∷ events.now ∷ [])
        ≡ Ok plan.new) }
    ensures err { IfErr result
        (IsFaultOf (with_sim plan.old
        (id.now ∷ kind.now ∷ first_id.now ∷ rank.now ∷ events.now ∷ []))) }
{
    let id = text_of(id)?;
    let kind = text_of(kind)?;
    let first_id = whole_of(first_id)?;
    let rank = whole_of(rank)?;
    let events = wholes_of(alloc, events)?;
    put_sim(alloc, plan, id, kind, first_id, rank, events.as_slice())
}

// Adds a simulator, if its type is known and its numbers are within their limits.
fn put_sim(
    alloc: Global,
    plan: &mut Plan,
    id: &Text,
    kind: &Text,
    first_id: i128,
    rank: i128,
    events: &[i128],
) -> Result<(), LineFault>
    ensures ok { OnOk result
        (sim_put plan.old id.now kind.now first_id rank events.now ≡ Ok plan.new) }
    ensures err { IfErr result
        (IsFaultOf (sim_put plan.old id.now kind.now first_id rank events.now)) }
{
    let kind = kind_of(kind)?;
    if !sim_fits(first_id, rank, events) {
        return Err(OUT_OF_LIMITS);
    }
    let sim = sim_of(alloc, id, kind, first_id, rank, events)?;
    plan.sims.push(sim)?;
    Ok(())
}

fn sim_of(
    alloc: Global,
    id: &Text,
    kind: SimKind,
    first_id: i128,
    rank: i128,
    events: &[i128],
) -> Result<PlanSim, Mem>
    requires { sim_fits first_id rank events.now ≡ true }
    ensures { IfOk result (λ s. s
        ≡ record {
          id = id.now;
          kind = kind;
          first_id = nat_abs first_id;
          rank = nat_abs rank;
          initial = events.now;
        }) }
{
    let initial = times_of(alloc, events)?;
    Ok(PlanSim {
        id: id.copy()?,
        kind,
        first_id: first_id as u64,
        rank: rank as u32,
        initial,
    })
}

fn sim_fits(first_id: i128, rank: i128, events: &[i128]) -> bool
    ensures { result ≡ sim_fits first_id rank events.now }
{
    is_from(0, i128::from(MOST_REQUESTS), first_id)
        && is_from(0, i128::from(HIGHEST_RANK), rank)
        && events_fit(events)
}

fn events_fit(events: &[i128]) -> bool
    ensures { result ≡ list_all event_fits events.now }
{
    for event in events {
        if !is_from(0, i128::from(LATEST_END), *event) {
            return false;
        }
    }
    true
}

fn times_of(alloc: Global, events: &[i128]) -> Result<List<i64>, Mem>
    requires { list_all event_fits events.now ≡ true }
    ensures { IfOk result (λ ts. ts ≡ events.now) }
{
    let mut times = List::new(alloc);
    for event in events {
        times.push(time_of(event))?;
    }
    Ok(times)
}

fn time_of(event: &i128) -> i64
    requires { event_fits event.now ≡ true }
    ensures { result ≡ event.now }
{
    *event as i64
}

pub fn add_model(alloc: Global, plan: &mut Plan, items: &[Json]) -> Result<(), LineFault>
    ensures ok { OnOk result (with_model plan.old items.now ≡ Ok plan.new) }
    ensures err { IfErr result (IsFaultOf (with_model plan.old items.now)) }
{
    let [sim, name, attrs, any_inputs] = items else {
        return Err(MISFORMED);
    };
    let sim = whole_of(sim)?;
    let name = text_of(name)?;
    let any_inputs = bool_of(any_inputs)?;
    let attrs = texts_of(alloc, attrs)?;
    put_model(plan, sim, name, attrs, any_inputs)
}

// Adds a model, if its simulator stands before.
fn put_model(
    plan: &mut Plan,
    sim: i128,
    name: &Text,
    attrs: List<Text>,
    any_inputs: bool,
) -> Result<(), LineFault>
    ensures ok { OnOk result (model_put plan.old sim name.now attrs any_inputs ≡ Ok plan.new) }
    ensures err { IfErr result (IsFaultOf (model_put plan.old sim name.now attrs any_inputs)) }
{
    let sim = place_among(plan.sims.len(), sim)?;
    let name = name.copy()?;
    plan.models.push(PlanModel {
        sim: SimNo(sim),
        name,
        attrs,
        any_inputs,
    })?;
    Ok(())
}

pub fn add_entity(alloc: Global, plan: &mut Plan, items: &[Json]) -> Result<(), LineFault>
    ensures ok { OnOk result (with_entity plan.old items.now ≡ Ok plan.new) }
    ensures err { IfErr result (IsFaultOf (with_entity plan.old items.now)) }
{
    match items {
        [model, eid, related] => add_entity_of(alloc, plan, model, eid, related),
        _ => Err(MISFORMED),
    }
}

// The same where the line has as many fields as it needs.
fn add_entity_of(
    alloc: Global,
    plan: &mut Plan,
    model: &Json,
    eid: &Json,
    related: &Json,
) -> Result<(), LineFault>
    ensures ok { OnOk result
        (with_entity plan.old (model.now ∷ eid.now ∷ related.now ∷ []) ≡ Ok plan.new) }
    ensures err { IfErr result
        (IsFaultOf (with_entity plan.old (model.now ∷ eid.now ∷ related.now ∷ []))) }
{
    let model = whole_of(model)?;
    let eid = text_of(eid)?;
    let related = wholes_of(alloc, related)?;
    put_entity(alloc, plan, model, eid, related.as_slice())
}

// Adds an entity, if its model stands before and its numbers are within their limits.
fn put_entity(
    alloc: Global,
    plan: &mut Plan,
    model: i128,
    eid: &Text,
    related: &[i128],
) -> Result<(), LineFault>
    ensures ok { OnOk result (entity_put plan.old model eid.now related.now ≡ Ok plan.new) }
    ensures err { IfErr result (IsFaultOf (entity_put plan.old model eid.now related.now)) }
{
    if !entity_fits(plan.models.len(), model, related) {
        return Err(OUT_OF_LIMITS);
    }
    let model = place_number(model)?;
    let related = numbers_of(alloc, related)?;
    let eid = eid.copy()?;
    plan.entities.push(PlanEntity {
        model,
        eid,
        related,
    })?;
    Ok(())
}

fn entity_fits(count: usize, model: i128, related: &[i128]) -> bool
    ensures { result ≡ entity_fits count model related.now }
{
    names_one_of(count, model) && are_below(MOST_ENTITIES as usize, related)
}

fn are_below(count: usize, places: &[i128]) -> bool
    ensures { result ≡ list_all (is_below count) places.now }
{
    for place in places {
        if !names_one_of(count, *place) {
            return false;
        }
    }
    true
}

fn numbers_of(alloc: Global, places: &[i128]) -> Result<List<u32>, Mem>
    requires { list_all (is_below most_entities) places.now ≡ true }
    ensures { IfOk result (λ ns. ns ≡ map nat_abs places.now) }
{
    let mut numbers = List::new(alloc);
    for place in places {
        numbers.push(related_number(place))?;
    }
    Ok(numbers)
}

fn related_number(place: &i128) -> u32
    requires { is_below most_entities place.now ≡ true }
    ensures { result ≡ nat_abs place.now }
{
    *place as u32
}

pub fn add_conn(
    alloc: Global,
    plan: &mut Plan,
    version: Version,
    items: &[Json],
) -> Result<(), LineFault>
    requires { list_all is_in_range items.now ≡ true }
    ensures ok { OnOk result (with_conn (is_second version) plan.old items.now ≡ Ok plan.new) }
    ensures err { IfErr result (IsFaultOf (with_conn (is_second version) plan.old items.now)) }
{
    match items {
        [from, from_attr, to, to_attr, way @ ..] => {
            add_conn_of(alloc, plan, version, from, from_attr, to, to_attr, way)
        }
        _ => Err(MISFORMED),
    }
}

// The ends of a connection as its line says them: places of entities, and attributes.
#[derive(Drop)]
struct Ends<'a> {
    from: i128,
    from_attr: &'a Text,
    to: i128,
    to_attr: &'a Text,
}

// The same where the line has as many fields as it needs, or more.
fn add_conn_of(
    alloc: Global,
    plan: &mut Plan,
    version: Version,
    from: &Json,
    from_attr: &Json,
    to: &Json,
    to_attr: &Json,
    way: &[Json],
) -> Result<(), LineFault>
    requires { list_all is_in_range way.now ≡ true }
    ensures ok { OnOk result
        (with_conn (is_second version) plan.old
        (from.now ∷ from_attr.now ∷ to.now ∷ to_attr.now ∷ way.now) ≡ Ok plan.new) }
    ensures err { IfErr result
        (IsFaultOf (with_conn (is_second version) plan.old
        (from.now ∷ from_attr.now ∷ to.now ∷ to_attr.now ∷ way.now))) }
{
    let ends = Ends {
        from: whole_of(from)?,
        from_attr: text_of(from_attr)?,
        to: whole_of(to)?,
        to_attr: text_of(to_attr)?,
    };
    add_way(alloc, plan, version, &ends, way)
}

// Adds a connection with these ends, and the fields behind them.
fn add_way(
    alloc: Global,
    plan: &mut Plan,
    version: Version,
    ends: &Ends,
    way: &[Json],
) -> Result<(), LineFault>
    requires { list_all is_in_range way.now ≡ true }
    ensures ok { OnOk result
        (with_way (is_second version) plan.old ends.now.from ends.now.from_attr.now ends.now.to
        ends.now.to_attr.now way.now ≡ Ok plan.new) }
    ensures err { IfErr result
        (IsFaultOf (with_way
        (is_second version) plan.old ends.now.from ends.now.from_attr.now ends.now.to
        ends.now.to_attr.now way.now)) }
{
    match way {
        [via, persistent, triggering, initial] => add_way_of(
            alloc, plan, version, ends, via, persistent, triggering, initial,
        ),
        _ => Err(MISFORMED),
    }
}

// The same where as many fields stand there as it needs.
fn add_way_of(
    alloc: Global,
    plan: &mut Plan,
    version: Version,
    ends: &Ends,
    via: &Json,
    persistent: &Json,
    triggering: &Json,
    initial: &Json,
) -> Result<(), LineFault>
    requires { is_in_range initial.now ≡ true }
    ensures ok { OnOk result
        (with_way (is_second version) plan.old ends.now.from ends.now.from_attr.now ends.now.to
        ends.now.to_attr.now (via.now ∷ persistent.now ∷ triggering.now ∷ initial.now ∷ [])
        ≡ Ok plan.new) }
    ensures err { IfErr result
        (IsFaultOf (with_way
        (is_second version) plan.old ends.now.from ends.now.from_attr.now ends.now.to
        ends.now.to_attr.now (via.now ∷ persistent.now ∷ triggering.now ∷ initial.now ∷ []))) }
{
    let (name, width) = way_of(version, via)?;
    let persistent = bool_of(persistent)?;
    let triggering = bool_of(triggering)?;
    let initial = initial_of(alloc, initial)?;
    let via = match via_of(version, name, width) {
        Ok(via) => via,
        Err(fault) => {
            drop(initial);
            return Err(fault);
        }
    };
    put_conn(plan, ends, via, persistent, triggering, initial)
}

// Adds a connection, if the entities that it joins stand before.
fn put_conn(
    plan: &mut Plan,
    ends: &Ends,
    via: Via,
    persistent: bool,
    triggering: bool,
    initial: Option<Datum>,
) -> Result<(), LineFault>
    ensures ok { OnOk result
        (conn_put plan.old ends.now.from ends.now.from_attr.now ends.now.to ends.now.to_attr.now via
        persistent
        triggering initial ≡ Ok plan.new) }
    ensures err { IfErr result
        (IsFaultOf (conn_put plan.old ends.now.from ends.now.from_attr.now ends.now.to
        ends.now.to_attr.now via
        persistent triggering initial)) }
{
    let (from, to) = match places_among(plan.entities.len(), ends.from, ends.to) {
        Ok(places) => places,
        Err(fault) => {
            drop(initial);
            return Err(fault);
        }
    };
    let Ok((from_attr, to_attr)) = both_copied(ends.from_attr, ends.to_attr) else {
        drop(initial);
        return Err(LineFault::Mem);
    };
    plan.conns.push(Conn {
        from,
        from_attr,
        to,
        to_attr,
        via,
        persistent,
        triggering,
        initial,
    })?;
    Ok(())
}

fn both_copied(first: &Text, second: &Text) -> Result<(Text, Text), Mem>
    ensures { IfOk result (λ both. (both.0 ≡ first.now) × (both.1 ≡ second.now)) }
{
    let first = first.copy()?;
    let second = second.copy()?;
    Ok((first, second))
}

pub fn add_async(plan: &mut Plan, items: &[Json]) -> Result<(), LineFault>
    ensures ok { OnOk result (with_async plan.old items.now ≡ Ok plan.new) }
    ensures err { IfErr result (IsFaultOf (with_async plan.old items.now)) }
{
    let [from, to] = items else {
        return Err(MISFORMED);
    };
    let from = whole_of(from)?;
    let to = whole_of(to)?;
    let (from, to) = places_among(plan.sims.len(), from, to)?;
    plan.asyncs.push(AsyncPair {
        from: SimNo(from),
        to: SimNo(to),
    })?;
    Ok(())
}

// The message of a line, whose parts are moved into it.
pub fn arrival_of(plan: &Plan, tree: Json) -> Result<Arrival, LineFault>
    ensures ok { IfOk result
        (λ a. tested misformed (items_in tree) (arrival_in plan.now) ≡ Ok (came a)) }
    ensures err { IfErr result
        (IsFaultOf (tested misformed (items_in tree) (arrival_in plan.now))) }
    ensures known { is_in_range tree ≡ true → IfOk result (λ a. IsKnown plan.now (came a)) }
{
    match tree {
        Json::List(items) => arrival_among(plan, items),
        _ => Err(MISFORMED),
    }
}

fn arrival_among(plan: &Plan, items: List<Json>) -> Result<Arrival, LineFault>
    ensures ok { IfOk result (λ a. arrival_in plan.now items ≡ Ok (came a)) }
    ensures err { IfErr result (IsFaultOf (arrival_in plan.now items)) }
{
    match pair_of(items) {
        Some((sim, message)) => arrival_of_fields(plan, &sim, message),
        None => Err(MISFORMED),
    }
}

// The two items of a list of two.
fn pair_of(items: List<Json>) -> Option<(Json, Json)>
    ensures { MatchOption result ((P : plans.Plan) → arrival_in P items ≡ Err misformed)
        (λ p. items ≡ p.0 ∷ p.1 ∷ []) }
{
    if items.len() != 2 {
        return None;
    }
    let mut left = items;
    let second = left.pop()?;
    let first = left.pop()?;
    Some((first, second))
}

// The same where the line has as many fields as it needs.
fn arrival_of_fields(plan: &Plan, sim: &Json, message: Json) -> Result<Arrival, LineFault>
    ensures ok { IfOk result (λ a. arrival_in plan.now (sim.now ∷ message ∷ []) ≡ Ok (came a)) }
    ensures err { IfErr result (IsFaultOf (arrival_in plan.now (sim.now ∷ message ∷ []))) }
{
    let sim = match whole_of(sim) {
        Ok(sim) => sim,
        Err(fault) => {
            drop(message);
            return Err(fault);
        }
    };
    let message = message_of(message)?;
    match place_among(plan.sims.len(), sim) {
        Ok(sim) => Ok(Arrival {
            sim: SimNo(sim),
            message,
        }),
        Err(fault) => {
            drop(message);
            Err(fault)
        }
    }
}

pub fn asked_of(plan: &Plan, before: u64, items: &[Json]) -> Result<Asked, LineFault>
    ensures ok { IfOk result (λ a. asked_in plan.now before items.now ≡ Ok a) }
    ensures err { IfErr result (IsFaultOf (asked_in plan.now before items.now)) }
{
    match items {
        [sim, time, tier, max_advance] => {
            asked_of_fields(plan, before, sim, time, tier, max_advance)
        }
        _ => Err(MISFORMED),
    }
}

// The same where the line has as many fields as it needs.
fn asked_of_fields(
    plan: &Plan,
    before: u64,
    sim: &Json,
    time: &Json,
    tier: &Json,
    max_advance: &Json,
) -> Result<Asked, LineFault>
    ensures ok { IfOk result (λ a. asked_in plan.now before
        (sim.now ∷ time.now ∷ tier.now ∷ max_advance.now ∷ []) ≡ Ok a) }
    ensures err { IfErr result
        (IsFaultOf (asked_in plan.now before
        (sim.now ∷ time.now ∷ tier.now ∷ max_advance.now ∷ []))) }
{
    let sim = whole_of(sim)?;
    let time = whole_of(time)?;
    let tier = whole_of(tier)?;
    let max_advance = whole_of(max_advance)?;
    let sim = place_among(plan.sims.len(), sim)?;
    step_asked(before, sim, time, tier, max_advance)
}

pub fn step_asked(
    before: u64,
    sim: u32,
    time: i128,
    tier: i128,
    max_advance: i128,
) -> Result<Asked, LineFault>
    ensures ok { IfOk result (λ a. step_asked before sim time tier max_advance ≡ Ok a) }
    ensures err { IfErr result (IsFaultOf (step_asked before sim time tier max_advance)) }
{
    if !step_fits(time, tier, max_advance) {
        return Err(OUT_OF_LIMITS);
    }
    Ok(Asked {
        before,
        sim: SimNo(sim),
        at: Tier {
            time: time as i64,
            tier: tier as u32,
        },
        max_advance: max_advance as i64,
    })
}

fn step_fits(time: i128, tier: i128, max_advance: i128) -> bool
    ensures { result ≡ step_fits time tier max_advance }
{
    is_from(0, i128::from(LATEST_END), time)
        && is_from(0, i128::from(MOST_LOOPS), tier)
        && is_from(0, i128::from(LATEST_END), max_advance)
}

fn message_of(tree: Json) -> Result<Message, LineFault>
    ensures ok { IfOk result (λ m. result_ok (message_in tree) ≡ Some m) }
    ensures err { IfErr result (IsMissing (result_ok (message_in tree))) }
{
    match take_tree(tree) {
        Ok(message) => Ok(message),
        Err(_) => Err(MISFORMED),
    }
}

fn names_one_of(count: usize, place: i128) -> bool
    ensures { result ≡ is_below count place }
{
    0 <= place && place < count as i128
}

// The number of one of so many things.
fn place_among(count: usize, place: i128) -> Result<u32, LineFault>
    ensures there { OnOk result (is_below count place ≡ true) }
    ensures ok { IfOk result (λ n. n ≡ nat_abs place) }
    ensures err { IfErr result (IsBeyond (is_below count place)) }
{
    if !names_one_of(count, place) {
        return Err(OUT_OF_LIMITS);
    }
    place_number(place)
}

// The numbers of two of so many things.
fn places_among(count: usize, from: i128, to: i128) -> Result<(u32, u32), LineFault>
    ensures there { OnOk result ((is_below count from && is_below count to) ≡ true) }
    ensures ok { IfOk result (λ ns. (ns.0 ≡ nat_abs from) × (ns.1 ≡ nat_abs to)) }
    ensures err { IfErr result (IsBeyond (is_below count from && is_below count to)) }
{
    let from = place_among(count, from)?;
    let to = place_among(count, to)?;
    Ok((from, to))
}

// A plan with so many parts that their numbers don't fit isn't kept.
fn place_number(place: i128) -> Result<u32, LineFault>
    ensures ok { IfOk result (λ n. n ≡ nat_abs place) }
    ensures err { IfErr result (λ e. e ≡ LineFault.Mem) }
{
    match u32::try_from(place) {
        Ok(number) => Ok(number),
        Err(_) => Err(LineFault::Mem),
    }
}
