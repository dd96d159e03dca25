//! The content of answers that need no output: `null`, and related entities.
ghost use Rattle.std.specs.Prelude.{◌≡◌, ℕ, ◌<◌, [], codes, length, All, IfOk, IfSome, IsSome, OnOk, Some, is_some, not, option_map};
ghost use Rattle.std.specs.BTreeMap.{insert_entry};
ghost use Rattle.mk_base.specs.declared.json.Json as tree;
ghost use Rattle.mk_base.specs.Lists.{text_order};
ghost use Rattle.mk_plan.specs.Plans.{RefersInside, full_id};
ghost use Rattle.mk_plan.specs.Asks.{Lookup, content_text, model_name, related_text, related_to};
ghost use Rattle.mk_plan_names.specs.Names.{AreNamesOf};
ghost use Rattle.mk_async.specs.Asked.{asked_in, gets};
ghost use Rattle.mk_async.specs.inner.Related.{described, each_read, each_text, put_read, related_tree, type_tree};

use crate::given::datum_of;
use crate::known::entity_of;
use crate::request::Asked;
use mk_base::{Datum, Json, List, Mem, Members, Text};
use mk_plan::Plan;
use mk_plan_names::Names;
use std::alloc::Global;

/// The content of the answer to a request that was judged, where it needs no output: `null` for `set_data`; for
/// `get_related_entities` an object of related entities with their models, and of a list an object of one such object
/// under each full id. `None` exactly for `get_data`.
pub fn plain_content(
    alloc: Global,
    plan: &Plan,
    names: &Names,
    asked: &Asked,
) -> Result<Option<Datum>, Mem>
    requires references { RefersInside plan.now }
    requires names { AreNamesOf plan.now names.now }
    requires form { IsSome (asked_in asked.now) }
    ensures there { IfOk result (λ content. is_some content ≡ not (gets asked.now)) }
    ensures content { (look : Lookup)
        → IfOk result (λ content.
        IfSome content (λ text. option_map (content_text plan.now look) (asked_in asked.now)
        ≡ Some text)) }
{
    match asked {
        Asked::Get(_) => Ok(None),
        Asked::Set(_) => Ok(Some(null(alloc)?)),
        Asked::Related(id) => Ok(Some(related(alloc, plan, names, id)?)),
        Asked::RelatedOfEach(ids) => Ok(Some(related_of_each(alloc, plan, names, ids)?)),
    }
}

// The text of `null`.
fn null(alloc: Global) -> Result<Datum, Mem>
    ensures { IfOk result (λ text. text ≡ codes "null") }
{
    let tree = Json::Null;
    datum_of(alloc, &tree)
}

// The entities that are related to the one of that full id.
fn related(alloc: Global, plan: &Plan, names: &Names, id: &Text) -> Result<Datum, Mem>
    requires references { RefersInside plan.now }
    requires names { AreNamesOf plan.now names.now }
    ensures { IfOk result (λ text. text ≡ related_text plan.now id.now) }
{
    let tree = related_tree(alloc, plan, names, id)?;
    datum_of(alloc, &tree)
}

fn related_tree(alloc: Global, plan: &Plan, names: &Names, id: &Text) -> Result<Json, Mem>
    requires references { RefersInside plan.now }
    requires names { AreNamesOf plan.now names.now }
    ensures { IfOk result (λ tree. tree ≡ related_tree plan.now id.now) }
{
    Ok(Json::Object(related_members(alloc, plan, names, id)?))
}

fn related_members(
    alloc: Global,
    plan: &Plan,
    names: &Names,
    id: &Text,
) -> Result<Members<Json>, Mem>
    requires references { RefersInside plan.now }
    requires names { AreNamesOf plan.now names.now }
    ensures { IfOk result (λ members. members ≡ described plan.now (related_to plan.now id.now)) }
{
    match entity_of(plan, names, id) {
        Some(entity) => {
            let named = plan.entities.at(entity as usize);
            describe(alloc, plan, names, &named.related)
        }
        None => Ok(Members::new(alloc)),
    }
}

// These entities with their models.
fn describe(
    alloc: Global,
    plan: &Plan,
    names: &Names,
    entities: &List<u32>,
) -> Result<Members<Json>, Mem>
    requires references { RefersInside plan.now }
    requires names { AreNamesOf plan.now names.now }
    requires inside { All (λ (e : ℕ). e < length plan.now.entities) entities.now }
    ensures { IfOk result (λ members. members ≡ described plan.now entities.now) }
{
    let mut members = Members::new(alloc);
    for entity in entities.as_slice() {
        put_entity(alloc, plan, names, &mut members, *entity)?;
    }
    Ok(members)
}

// Puts in an entity with its model.
fn put_entity(
    alloc: Global,
    plan: &Plan,
    names: &Names,
    members: &mut Members<Json>,
    entity: u32,
) -> Result<(), Mem>
    requires references { RefersInside plan.now }
    requires names { AreNamesOf plan.now names.now }
    requires inside { entity < length plan.now.entities }
    ensures { OnOk result (members.new
        ≡ insert_entry text_order members.old (full_id plan.now entity)
        (type_tree plan.now entity)) }
{
    let id = Text::of(alloc, full_id(plan, names, entity))?;
    let described = type_tree(alloc, plan, entity)?;
    members.put(id, described)
}

// The full id of an entity.
fn full_id<'a>(plan: &Plan, names: &'a Names, entity: u32) -> &'a str
    requires names { AreNamesOf plan.now names.now }
    requires inside { entity < length plan.now.entities }
    ensures { result.now ≡ full_id plan.now entity }
{
    names.full_id(entity)
}

// An entity's description: its model.
fn type_tree(alloc: Global, plan: &Plan, entity: u32) -> Result<Json, Mem>
    requires references { RefersInside plan.now }
    requires inside { entity < length plan.now.entities }
    ensures { IfOk result (λ tree. tree ≡ type_tree plan.now entity) }
{
    let mut members = Members::new(alloc);
    put_type(alloc, plan, &mut members, entity)?;
    Ok(Json::Object(members))
}

fn put_type(alloc: Global, plan: &Plan, members: &mut Members<Json>, entity: u32) -> Result<(), Mem>
    requires references { RefersInside plan.now }
    requires inside { entity < length plan.now.entities }
    requires empty { members.old ≡ [] }
    ensures { OnOk result (tree.Object members.new ≡ type_tree plan.now entity) }
{
    let name = Text::of(alloc, "type")?;
    let model = model_name(plan, entity)?;
    members.put(name, Json::Text(model))
}

// The name of the model of an entity.
fn model_name(plan: &Plan, entity: u32) -> Result<Text, Mem>
    requires references { RefersInside plan.now }
    requires inside { entity < length plan.now.entities }
    ensures { IfOk result (λ name. name ≡ model_name plan.now entity) }
{
    let model = plan.entities.at(entity as usize).model;
    plan.models.at(model as usize).name.copy()
}

// For each of these full ids the entities that are related to its entity.
fn related_of_each(
    alloc: Global,
    plan: &Plan,
    names: &Names,
    ids: &List<Json>,
) -> Result<Datum, Mem>
    requires references { RefersInside plan.now }
    requires names { AreNamesOf plan.now names.now }
    ensures { IfOk result (λ text. text ≡ each_text plan.now ids.now) }
{
    let tree = Json::Object(members_of_each(alloc, plan, names, ids)?);
    datum_of(alloc, &tree)
}

fn members_of_each(
    alloc: Global,
    plan: &Plan,
    names: &Names,
    ids: &List<Json>,
) -> Result<Members<Json>, Mem>
    requires references { RefersInside plan.now }
    requires names { AreNamesOf plan.now names.now }
    ensures { IfOk result (λ members. members ≡ each_read plan.now ids.now) }
{
    let mut members = Members::new(alloc);
    for id in ids.as_slice() {
        put_related(alloc, plan, names, &mut members, id)?;
    }
    Ok(members)
}

// Puts in the entities that are related to one of the full ids.
fn put_related(
    alloc: Global,
    plan: &Plan,
    names: &Names,
    members: &mut Members<Json>,
    id: &Json,
) -> Result<(), Mem>
    requires references { RefersInside plan.now }
    requires names { AreNamesOf plan.now names.now }
    ensures { OnOk result (members.new ≡ put_read plan.now members.old id.now) }
{
    match id.as_text() {
        Some(text) => {
            let name = text.copy()?;
            let tree = related_tree(alloc, plan, names, text)?;
            members.put(name, tree)
        }
        None => Ok(()),
    }
}
