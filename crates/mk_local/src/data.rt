//! The reply to a GetData.
ghost use Rattle.std.specs.Prelude.{◌≡◌, IfOk, OnOk, option_map};
ghost use Rattle.std.specs.Fmt.{decimal};
ghost use Rattle.mk_base.specs.Lists.{same_text};
ghost use Rattle.mk_local.specs.Data.{data_content, entity_named, later_made, output, output_time, outputs, part, place_named, placed};

use crate::entity::Entity;
use crate::names::output_of;
use crate::trees::{object, put};
use crate::turn::Turn;
use mk_base::{Json, List, Mem, Members, Text};
use mk_plan::Want;
use std::alloc::Global;

// The content of the reply to a GetData: the wanted outputs that were given in the last Step, and when they are made.
pub fn data_content(
    alloc: Global,
    turn: Turn,
    entities: &List<Entity>,
    wanted: &List<Want>,
) -> Result<Json, Mem>
    ensures { IfOk result (λ t. t ≡ data_content turn entities.now wanted.now) }
{
    let mut members = outputs(alloc, turn, entities, wanted)?;
    if let Some(time) = output_time(entities) {
        put(alloc, &mut members, "time", Json::Whole(time as i128))?;
    }
    members.trim();
    Ok(Json::Object(members))
}

// The wanted outputs, each under its entity's name.
fn outputs(
    alloc: Global,
    turn: Turn,
    entities: &List<Entity>,
    wanted: &List<Want>,
) -> Result<Members<Json>, Mem>
    ensures { IfOk result (λ ms. ms ≡ outputs turn entities.now wanted.now) }
{
    let mut members = Members::new(alloc);
    for want in wanted.as_slice() {
        put_part(alloc, &mut members, turn, entities, want)?;
    }
    Ok(members)
}

// Puts a wanted output among the others, if it was given.
fn put_part(
    alloc: Global,
    members: &mut Members<Json>,
    turn: Turn,
    entities: &List<Entity>,
    want: &Want,
) -> Result<(), Mem>
    ensures { OnOk result (members.new ≡ placed members.old (part turn entities.now want.now)) }
{
    if let Some(n) = output(turn, entities, want) {
        let value = object(alloc, want.attr.copy()?, Json::Whole(n as i128))?;
        members.put(want.eid.copy()?, value)?;
    }
    Ok(())
}

// The wanted output, if it was given in the last Step.
fn output(turn: Turn, entities: &List<Entity>, want: &Want) -> Option<i64>
    ensures { result ≡ output turn entities.now want.now }
{
    if want.attr.as_str() == output_of(turn) {
        entity_named(entities, &want.eid)?.out
    } else {
        None
    }
}

// The entity of this name.
fn entity_named<'a>(entities: &'a List<Entity>, eid: &Text) -> Option<&'a Entity>
    ensures { option_map (λ e. e.now) result ≡ entity_named eid.now entities.now }
{
    match place_named(entities.len(), eid.as_str()) {
        Some(place) => entities.get(place),
        None => None,
    }
}

// The place below the count that is written so.
pub fn place_named(count: usize, eid: &str) -> Option<usize>
    ensures { result ≡ place_named count eid.now }
{
    match eid.parse::<usize>() {
        Ok(place) => {
            if place < count && is_place(place, eid) {
                Some(place)
            } else {
                None
            }
        }
        Err(_) => None,
    }
}

// Whether this is how the place is written.
fn is_place(place: usize, eid: &str) -> bool
    ensures { result ≡ same_text (decimal place) eid.now }
{
    let mut buffer = itoa::Buffer::new();
    buffer.format(place) == eid
}

// When the outputs of the last Step are made, if an entity that gave one says so.
fn output_time(entities: &List<Entity>) -> Option<i64>
    ensures { result ≡ output_time entities.now }
{
    let mut latest = None;
    for entity in entities.as_slice() {
        latest = later_made(latest, entity);
    }
    latest
}

// The greater of a time and the entity's output time, where these are there and it gave an output.
fn later_made(latest: Option<i64>, entity: &Entity) -> Option<i64>
    ensures { result ≡ later_made latest entity.now }
{
    if entity.out.is_none() {
        return latest;
    }
    match entity.at {
        Some(at) => match latest {
            Some(time) => Some(if time < at { at } else { time }),
            None => Some(at),
        },
        None => latest,
    }
}
