//! The values that a request sets.
ghost use Rattle.std.specs.Prelude.{◌≡◌, ℕ, All, ◌++◌, ◌∷◌, [], true, Some, IsSome, IfOk, OnOk, option_map, unwrap_or};
ghost use Rattle.mk_base.specs.Texts.{text_of};
ghost use Rattle.mk_plan.specs.Asks.{entity_of, knows, sets_in};
ghost use Rattle.mk_plan_names.specs.Names.{AreNamesOf};
ghost use Rattle.mk_async.specs.Asked.{IsGivenBy, asked_in, is_asked_in_range};
ghost use Rattle.mk_async.specs.Forms.{each_passes, is_object_of, is_value};
ghost use Rattle.mk_async.specs.inner.Given.{is_source, values_from, values_in, values_to};
ghost use Rattle.mk_base.specs.Trees.{members_of};

use crate::known::entity_of;
use crate::request::Asked;
use mk_base::{Datum, Json, List, Mem, Members, Text};
use mk_plan::{Plan, SetValue};
use mk_plan_names::Names;
use std::alloc::Global;

/// The values that a request sets, in byte order of source, destination and attribute; none but of `set_data`. Where
/// the request was judged, each is set under the full id of an entity of the asking simulator. Fails for want of memory
/// alone.
pub fn given_values(
    alloc: Global,
    plan: &Plan,
    names: &Names,
    asked: &Asked,
) -> Result<List<SetValue>, Mem>
    requires names { AreNamesOf plan.now names.now }
    requires form { IsSome (asked_in asked.now) }
    requires range { is_asked_in_range asked.now ≡ true }
    ensures sets { IfOk result (λ sets. option_map (sets_in plan.now) (asked_in asked.now)
        ≡ Some sets) }
    ensures given { (s : ℕ) → option_map (knows plan.now s) (asked_in asked.now) ≡ Some true
        → IfOk result (λ sets. All (IsGivenBy plan.now s) sets) }
{
    match asked {
        Asked::Get(_) => Ok(List::new(alloc)),
        Asked::Set(sources) => values_in(alloc, plan, names, sources),
        Asked::Related(_) => Ok(List::new(alloc)),
        Asked::RelatedOfEach(_) => Ok(List::new(alloc)),
    }
}

// The values of all sources.
fn values_in(
    alloc: Global,
    plan: &Plan,
    names: &Names,
    sources: &Members<Json>,
) -> Result<List<SetValue>, Mem>
    requires names { AreNamesOf plan.now names.now }
    requires values { each_passes is_source sources.now ≡ true }
    ensures { IfOk result (λ sets. sets ≡ values_in plan.now sources.now) }
{
    let mut sets = List::new(alloc);
    put_sources(alloc, plan, names, &mut sets, sources)?;
    Ok(sets)
}

// Appends the values of all sources.
fn put_sources(
    alloc: Global,
    plan: &Plan,
    names: &Names,
    sets: &mut List<SetValue>,
    sources: &Members<Json>,
) -> Result<(), Mem>
    requires names { AreNamesOf plan.now names.now }
    requires values { each_passes is_source sources.now ≡ true }
    ensures { OnOk result (sets.new ≡ sets.old ++ values_in plan.now sources.now) }
{
    for source in sources.entries() {
        put_source(alloc, plan, names, sets, &source.0, &source.1)?;
    }
    Ok(())
}

// Appends the values from one source: an object, since `are_sources` has passed it.
fn put_source(
    alloc: Global,
    plan: &Plan,
    names: &Names,
    sets: &mut List<SetValue>,
    source: &Text,
    tree: &Json,
) -> Result<(), Mem>
    requires names { AreNamesOf plan.now names.now }
    requires values { is_source tree.now ≡ true }
    ensures { OnOk result (sets.new ≡ sets.old
        ++ values_from plan.now source.now (members_of tree.now)) }
{
    match tree.as_object() {
        Some(members) => put_destinations(alloc, plan, names, sets, source, members),
        None => unreachable!(),
    }
}

fn put_destinations(
    alloc: Global,
    plan: &Plan,
    names: &Names,
    sets: &mut List<SetValue>,
    source: &Text,
    members: &Members<Json>,
) -> Result<(), Mem>
    requires names { AreNamesOf plan.now names.now }
    requires values { each_passes (is_object_of is_value) members.now ≡ true }
    ensures { OnOk result (sets.new ≡ sets.old ++ values_from plan.now source.now members.now) }
{
    for member in members.entries() {
        put_destination(alloc, plan, names, sets, source, &member.0, &member.1)?;
    }
    Ok(())
}

// Appends the values from one source for one destination: an object, since `are_sources` has passed
// it.
fn put_destination(
    alloc: Global,
    plan: &Plan,
    names: &Names,
    sets: &mut List<SetValue>,
    source: &Text,
    id: &Text,
    tree: &Json,
) -> Result<(), Mem>
    requires names { AreNamesOf plan.now names.now }
    requires values { is_object_of is_value tree.now ≡ true }
    ensures { OnOk result (sets.new ≡ sets.old
        ++ values_to plan.now source.now id.now (members_of tree.now)) }
{
    match tree.as_object() {
        Some(members) => put_values(alloc, plan, names, sets, source, id, members),
        None => unreachable!(),
    }
}

fn put_values(
    alloc: Global,
    plan: &Plan,
    names: &Names,
    sets: &mut List<SetValue>,
    source: &Text,
    id: &Text,
    members: &Members<Json>,
) -> Result<(), Mem>
    requires names { AreNamesOf plan.now names.now }
    requires values { each_passes is_value members.now ≡ true }
    ensures { OnOk result (sets.new ≡ sets.old
        ++ values_to plan.now source.now id.now members.now) }
{
    let entity = place_of(plan, names, id);
    for member in members.entries() {
        put_value(alloc, sets, source, entity, &member.0, &member.1)?;
    }
    Ok(())
}

// The entity of that full id. There is one where the request was judged; where there is none, entity 0.
fn place_of(plan: &Plan, names: &Names, id: &Text) -> u32
    requires { AreNamesOf plan.now names.now }
    ensures { result ≡ unwrap_or (entity_of plan.now id.now) 0 }
{
    match entity_of(plan, names, id) {
        Some(entity) => entity,
        None => 0,
    }
}

// Appends one value.
fn put_value(
    alloc: Global,
    sets: &mut List<SetValue>,
    source: &Text,
    entity: u32,
    attr: &Text,
    value: &Json,
) -> Result<(), Mem>
    requires { is_value value.now ≡ true }
    ensures { OnOk result (sets.new ≡ sets.old
        ++ record {
          source = source.now;
          entity = entity;
          attr = attr.now;
          value = text_of value.now;
        } ∷ []) }
{
    let given = given(alloc, source, entity, attr, value)?;
    sets.push(given)
}

// One value that is set.
fn given(
    alloc: Global,
    source: &Text,
    entity: u32,
    attr: &Text,
    value: &Json,
) -> Result<SetValue, Mem>
    requires { is_value value.now ≡ true }
    ensures { IfOk result (λ given. given
        ≡ record {
          source = source.now;
          entity = entity;
          attr = attr.now;
          value = text_of value.now;
        }) }
{
    let source = source.copy()?;
    let attr = attr.copy()?;
    let value = datum_of(alloc, value)?;
    Ok(SetValue {
        source,
        entity,
        attr,
        value,
    })
}

/// The text of a value that a simulator may give or get: it is a datum whose whole numbers are in
/// range, so nothing but memory can be wanting.
pub fn datum_of(alloc: Global, value: &Json) -> Result<Datum, Mem>
    requires { is_value value.now ≡ true }
    ensures { IfOk result (λ text. text ≡ text_of value.now) }
{
    mk_json::datum_of(alloc, value)
}
