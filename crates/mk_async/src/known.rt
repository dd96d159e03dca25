//! Whether the entities and attributes of a request are known.
ghost use Rattle.std.specs.Prelude.{◌≡◌, ◌<◌, length, IfSome};
ghost use Rattle.std.specs.List.{list_any};
ghost use Rattle.mk_base.specs.Lists.{same_text};
ghost use Rattle.mk_plan.specs.Plans.{RefersInside};
ghost use Rattle.mk_plan.specs.Asks.{entity_of, gives_attr, takes_attr};
ghost use Rattle.mk_plan_names.specs.Names.{AreNamesOf};
ghost use Rattle.mk_async.specs.Forms.{is_such};
ghost use Rattle.mk_async.specs.inner.Known.{are_known, gives_each, is_known, is_own, knows_asked, knows_destination, knows_destinations, knows_source, knows_sources, knows_want, knows_wants, takes_each};
ghost use Rattle.mk_base.specs.Trees.{items_in, members_in, text_in};

use crate::request::Asked;
use mk_base::{Json, List, Members, SimNo, Text};
use mk_plan::{Plan, PlanModel};
use mk_plan_names::Names;

// Whether each entity and attribute of what the simulator asks for is known.
pub fn knows(plan: &Plan, names: &Names, sim: SimNo, asked: &Asked) -> bool
    requires references { RefersInside plan.now }
    requires names { AreNamesOf plan.now names.now }
    ensures { result ≡ knows_asked plan.now sim.0 asked.now }
{
    match asked {
        Asked::Get(wants) => knows_wants(plan, names, wants),
        Asked::Set(sources) => knows_sources(plan, names, sim, sources),
        Asked::Related(text) => is_known(plan, names, text),
        Asked::RelatedOfEach(texts) => are_known(plan, names, texts),
    }
}

// The entity of a full id.
pub fn entity_of(plan: &Plan, names: &Names, id: &Text) -> Option<u32>
    requires { AreNamesOf plan.now names.now }
    ensures entity { result ≡ entity_of plan.now id.now }
    ensures there { IfSome result (λ e. e < length plan.now.entities) }
{
    names.find(id)
}

// Whether there is an entity of that full id.
fn is_known(plan: &Plan, names: &Names, id: &Text) -> bool
    requires { AreNamesOf plan.now names.now }
    ensures { result ≡ is_known plan.now id.now }
{
    match entity_of(plan, names, id) {
        Some(_) => true,
        None => false,
    }
}

// Whether each of these is the full id of an entity.
fn are_known(plan: &Plan, names: &Names, trees: &List<Json>) -> bool
    requires { AreNamesOf plan.now names.now }
    ensures { result ≡ are_known plan.now trees.now }
{
    trees
        .as_slice()
        .iter()
        .all(|tree| is_known_text(plan, names, tree))
}

fn is_known_text(plan: &Plan, names: &Names, tree: &Json) -> bool
    requires { AreNamesOf plan.now names.now }
    ensures { result ≡ is_such (is_known plan.now) (text_in tree.now) }
{
    match tree.as_text() {
        Some(text) => is_known(plan, names, text),
        None => false,
    }
}

// Whether each member is an entity with attributes that connections take from it.
fn knows_wants(plan: &Plan, names: &Names, wants: &Members<Json>) -> bool
    requires { AreNamesOf plan.now names.now }
    ensures { result ≡ knows_wants plan.now wants.now }
{
    wants
        .entries()
        .iter()
        .all(|want| knows_want(plan, names, &want.0, &want.1))
}

fn knows_want(plan: &Plan, names: &Names, id: &Text, tree: &Json) -> bool
    requires { AreNamesOf plan.now names.now }
    ensures { result ≡ knows_want plan.now id.now tree.now }
{
    match entity_of(plan, names, id) {
        Some(entity) => gives_list(plan, names, entity, tree),
        None => false,
    }
}

// Whether it is a list of attributes that connections take from the entity.
fn gives_list(plan: &Plan, names: &Names, entity: u32, tree: &Json) -> bool
    requires { AreNamesOf plan.now names.now }
    ensures { result ≡ is_such (gives_each plan.now entity) (items_in tree.now) }
{
    match tree.as_list() {
        Some(attrs) => gives_each(plan, names, entity, attrs),
        None => false,
    }
}

fn gives_each(plan: &Plan, names: &Names, entity: u32, attrs: &List<Json>) -> bool
    requires { AreNamesOf plan.now names.now }
    ensures { result ≡ gives_each plan.now entity attrs.now }
{
    attrs
        .as_slice()
        .iter()
        .all(|attr| gives(plan, names, entity, attr))
}

fn gives(plan: &Plan, names: &Names, entity: u32, attr: &Json) -> bool
    requires { AreNamesOf plan.now names.now }
    ensures { result ≡ is_such (gives_attr plan.now entity) (text_in attr.now) }
{
    match attr.as_text() {
        Some(text) => names.gives(entity, text),
        None => false,
    }
}

// Whether each member is an entity of the simulator's, with known destinations.
fn knows_sources(plan: &Plan, names: &Names, sim: SimNo, sources: &Members<Json>) -> bool
    requires references { RefersInside plan.now }
    requires names { AreNamesOf plan.now names.now }
    ensures { result ≡ knows_sources plan.now sim.0 sources.now }
{
    sources.entries().iter().all(|source| knows_source(plan, names, sim, &source.0, &source.1))
}

fn knows_source(plan: &Plan, names: &Names, sim: SimNo, id: &Text, tree: &Json) -> bool
    requires references { RefersInside plan.now }
    requires names { AreNamesOf plan.now names.now }
    ensures { result ≡ knows_source plan.now sim.0 id.now tree.now }
{
    is_own(plan, names, sim, id) && has_known(plan, names, tree)
}

// Whether the entity is one of the simulator's own.
fn is_own(plan: &Plan, names: &Names, sim: SimNo, id: &Text) -> bool
    requires references { RefersInside plan.now }
    requires names { AreNamesOf plan.now names.now }
    ensures { result ≡ is_own plan.now sim.0 id.now }
{
    match entity_of(plan, names, id) {
        Some(entity) => plan.owner(entity).0 == sim.0,
        None => false,
    }
}

// Whether it is an object of known destinations.
fn has_known(plan: &Plan, names: &Names, tree: &Json) -> bool
    requires { AreNamesOf plan.now names.now }
    ensures { result ≡ is_such (knows_destinations plan.now) (members_in tree.now) }
{
    match tree.as_object() {
        Some(members) => knows_destinations(plan, names, members),
        None => false,
    }
}

// Whether each member is an entity with attributes that it may be given.
fn knows_destinations(plan: &Plan, names: &Names, members: &Members<Json>) -> bool
    requires { AreNamesOf plan.now names.now }
    ensures { result ≡ knows_destinations plan.now members.now }
{
    members.entries().iter().all(|member| knows_destination(plan, names, &member.0, &member.1))
}

fn knows_destination(plan: &Plan, names: &Names, id: &Text, tree: &Json) -> bool
    requires { AreNamesOf plan.now names.now }
    ensures { result ≡ knows_destination plan.now id.now tree.now }
{
    match entity_of(plan, names, id) {
        Some(entity) => takes_object(plan, entity, tree),
        None => false,
    }
}

// Whether it is an object of attributes that the entity may be given.
fn takes_object(plan: &Plan, entity: u32, tree: &Json) -> bool
    ensures { result ≡ is_such (takes_each plan.now entity) (members_in tree.now) }
{
    match tree.as_object() {
        Some(members) => takes_each(plan, entity, members),
        None => false,
    }
}

fn takes_each(plan: &Plan, entity: u32, members: &Members<Json>) -> bool
    ensures { result ≡ takes_each plan.now entity members.now }
{
    members
        .entries()
        .iter()
        .all(|member| takes(plan, entity, &member.0))
}

// Whether the entity may be given the attribute.
fn takes(plan: &Plan, entity: u32, attr: &Text) -> bool
    ensures { result ≡ takes_attr plan.now entity attr.now }
{
    match plan.entities.get(entity as usize) {
        Some(named) => match plan.models.get(named.model as usize) {
            Some(model) => model.any_inputs || has_attr(model, attr),
            None => false,
        },
        None => false,
    }
}

// Whether the model has the attribute.
fn has_attr(model: &PlanModel, attr: &Text) -> bool
    ensures { result ≡ list_any (same_text attr.now) model.now.attrs }
{
    model
        .attrs
        .as_slice()
        .iter()
        .any(|other| attr.bytes() == other.bytes())
}
