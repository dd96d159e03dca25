//! The inputs of a step and what is wanted, gathered from an argument.
ghost use Rattle.std.specs.Prelude.{◌≡◌, ◌++◌, ◌∷◌, [], true, is_some, IfOk, OnOk};
ghost use Rattle.mk_base.specs.Texts.{text_of};
ghost use Rattle.mk_base.specs.Trees.{is_in_range, text_in, members_of, items_of};
ghost use Rattle.mk_async.specs.Forms.{are_texts, each_passes, is_object_of, is_texts, is_value};
ghost use Rattle.mk_async.specs.inner.Given.{is_source};
ghost use Rattle.mk_simapi.specs.Requests.{inputs_in, wants_in};
ghost use Rattle.mk_simapi.specs.inner.Inputs.{inputs_among, inputs_at, inputs_by, inputs_to, text_or_empty, wants_among, wants_at, wants_by};

use mk_async::{are_sources, are_wants, datum_of};
use mk_base::{Json, List, Mem, Members, Text};
use mk_plan::{Input, Want};
use std::alloc::Global;

// The inputs that the argument has; `None` exactly where it hasn't their form.
pub fn inputs_in(alloc: Global, tree: &Json) -> Result<Option<List<Input>>, Mem>
    requires { is_in_range tree.now ≡ true }
    ensures { IfOk result (λ inputs. inputs ≡ inputs_in tree.now) }
{
    match tree.as_object() {
        Some(entities) => inputs_by(alloc, entities),
        None => Ok(None),
    }
}

// The same, of an object's members.
fn inputs_by(alloc: Global, entities: &Members<Json>) -> Result<Option<List<Input>>, Mem>
    requires { each_passes is_in_range entities.now ≡ true }
    ensures { IfOk result (λ inputs. inputs ≡ inputs_by entities.now) }
{
    if !are_sources(entities) {
        return Ok(None);
    }
    let mut inputs = List::new(alloc);
    put_entities(alloc, &mut inputs, entities)?;
    Ok(Some(inputs))
}

// Appends the inputs of all entities.
fn put_entities(
    alloc: Global,
    inputs: &mut List<Input>,
    entities: &Members<Json>,
) -> Result<(), Mem>
    requires { each_passes is_source entities.now ≡ true }
    ensures { OnOk result (inputs.new ≡ inputs.old ++ inputs_among entities.now) }
{
    for entity in entities.entries() {
        put_entity(alloc, inputs, &entity.0, &entity.1)?;
    }
    Ok(())
}

// Appends the inputs of one entity: an object, since `are_sources` has passed it.
fn put_entity(alloc: Global, inputs: &mut List<Input>, eid: &Text, tree: &Json) -> Result<(), Mem>
    requires { is_source tree.now ≡ true }
    ensures { OnOk result (inputs.new ≡ inputs.old ++ inputs_to eid.now (members_of tree.now)) }
{
    match tree.as_object() {
        Some(members) => put_attributes(alloc, inputs, eid, members),
        None => unreachable!(),
    }
}

fn put_attributes(
    alloc: Global,
    inputs: &mut List<Input>,
    eid: &Text,
    members: &Members<Json>,
) -> Result<(), Mem>
    requires { each_passes (is_object_of is_value) members.now ≡ true }
    ensures { OnOk result (inputs.new ≡ inputs.old ++ inputs_to eid.now members.now) }
{
    for member in members.entries() {
        put_attribute(alloc, inputs, eid, &member.0, &member.1)?;
    }
    Ok(())
}

// Appends the inputs of one attribute: an object, since `are_sources` has passed it.
fn put_attribute(
    alloc: Global,
    inputs: &mut List<Input>,
    eid: &Text,
    attr: &Text,
    tree: &Json,
) -> Result<(), Mem>
    requires { is_object_of is_value tree.now ≡ true }
    ensures { OnOk result (inputs.new ≡ inputs.old
        ++ inputs_at eid.now attr.now (members_of tree.now)) }
{
    match tree.as_object() {
        Some(members) => put_sources(alloc, inputs, eid, attr, members),
        None => unreachable!(),
    }
}

fn put_sources(
    alloc: Global,
    inputs: &mut List<Input>,
    eid: &Text,
    attr: &Text,
    members: &Members<Json>,
) -> Result<(), Mem>
    requires { each_passes is_value members.now ≡ true }
    ensures { OnOk result (inputs.new ≡ inputs.old ++ inputs_at eid.now attr.now members.now) }
{
    for member in members.entries() {
        put_source(alloc, inputs, eid, attr, &member.0, &member.1)?;
    }
    Ok(())
}

// Appends one input.
fn put_source(
    alloc: Global,
    inputs: &mut List<Input>,
    eid: &Text,
    attr: &Text,
    source: &Text,
    value: &Json,
) -> Result<(), Mem>
    requires { is_value value.now ≡ true }
    ensures { OnOk result (inputs.new ≡ inputs.old
        ++ record { eid = eid.now; attr = attr.now; source = source.now; value = text_of value.now }
        ∷ []) }
{
    let input = Input {
        eid: eid.copy()?,
        attr: attr.copy()?,
        source: source.copy()?,
        value: datum_of(alloc, value)?,
    };
    inputs.push(input)
}

// What the argument wants; `None` exactly where it hasn't that form.
pub fn wants_in(alloc: Global, tree: &Json) -> Result<Option<List<Want>>, Mem>
    ensures { IfOk result (λ wants. wants ≡ wants_in tree.now) }
{
    match tree.as_object() {
        Some(entities) => wants_by(alloc, entities),
        None => Ok(None),
    }
}

// The same, of an object's members.
fn wants_by(alloc: Global, entities: &Members<Json>) -> Result<Option<List<Want>>, Mem>
    ensures { IfOk result (λ wants. wants ≡ wants_by entities.now) }
{
    if !are_wants(entities) {
        return Ok(None);
    }
    let mut wants = List::new(alloc);
    put_wanted(&mut wants, entities)?;
    Ok(Some(wants))
}

// Appends what is wanted of all entities.
fn put_wanted(wants: &mut List<Want>, entities: &Members<Json>) -> Result<(), Mem>
    requires { each_passes is_texts entities.now ≡ true }
    ensures { OnOk result (wants.new ≡ wants.old ++ wants_among entities.now) }
{
    for entity in entities.entries() {
        put_wants_of(wants, &entity.0, &entity.1)?;
    }
    Ok(())
}

// Appends what is wanted of one entity: a list, since `are_wants` has passed it.
fn put_wants_of(wants: &mut List<Want>, eid: &Text, tree: &Json) -> Result<(), Mem>
    requires { is_texts tree.now ≡ true }
    ensures { OnOk result (wants.new ≡ wants.old ++ wants_at eid.now (items_of tree.now)) }
{
    match tree.as_list() {
        Some(attrs) => put_wants(wants, eid, attrs),
        None => unreachable!(),
    }
}

fn put_wants(wants: &mut List<Want>, eid: &Text, attrs: &List<Json>) -> Result<(), Mem>
    requires { are_texts attrs.now ≡ true }
    ensures { OnOk result (wants.new ≡ wants.old ++ wants_at eid.now attrs.now) }
{
    for attr in attrs.as_slice() {
        put_want(wants, eid, attr)?;
    }
    Ok(())
}

// Appends one attribute of an entity.
fn put_want(wants: &mut List<Want>, eid: &Text, attr: &Json) -> Result<(), Mem>
    requires { is_some (text_in attr.now) ≡ true }
    ensures { OnOk result (wants.new ≡ wants.old
        ++ record { eid = eid.now; attr = text_or_empty attr.now } ∷ []) }
{
    let want = Want {
        eid: eid.copy()?,
        attr: copied_text(attr)?,
    };
    wants.push(want)
}

// A copy of the text that a tree is.
fn copied_text(tree: &Json) -> Result<Text, Mem>
    requires { is_some (text_in tree.now) ≡ true }
    ensures { IfOk result (λ text. text ≡ text_or_empty tree.now) }
{
    match tree.as_text() {
        Some(text) => text.copy(),
        None => unreachable!(),
    }
}
