//! The replies to the requests before the run.
ghost use Rattle.std.specs.Prelude.{◌≡◌, [], ◌++◌, IfOk, OnErr, OnOk, codes, length, map, replicate};
ghost use Rattle.std.specs.List.{range_with_len};
ghost use Rattle.mk_base.specs.declared.json.Json as tree;
ghost use Rattle.mk_local.specs.Calls.{create_content, entity_tree, init_content, message, new_entity, setting_in, step_in};
ghost use Rattle.mk_local.specs.Rows.{IsStepOf};
ghost use Rattle.mk_local.specs.inner.Calls.{if_taken};

use crate::entity::Entity;
use crate::metadata::metadata;
use crate::names::model_of;
use crate::params::{first_bad_of_create, first_bad_of_init, setting_in, step_in};
use crate::trees::put_text;
use crate::turn::Turn;
use mk_base::{Json, List, Mem, Members, Text};
use mk_plan::Message;
use std::alloc::Global;

// The content of the reply to `init`, or the text of its failure.
pub fn init_content(alloc: Global, turn: Turn, params: &Json) -> Result<Result<Json, Text>, Mem>
    ensures { IfOk result (λ content. content ≡ init_content turn params.now) }
{
    match first_bad_of_init(turn, params) {
        Some(name) => Ok(Err(bad_parameter(alloc, name)?)),
        None => Ok(Ok(metadata(alloc, turn)?)),
    }
}

// The content of the reply to `create`, or the text of its failure, where so many entities are there already.
fn create_content(
    alloc: Global,
    turn: Turn,
    count: usize,
    num: u32,
    model: &Text,
    params: &Json,
) -> Result<Result<Json, Text>, Mem>
    ensures { IfOk result (λ content. content
        ≡ create_content turn count num model.now params.now) }
{
    if model.as_str() != model_of(turn) {
        return Ok(Err(Text::of(alloc, "unknown model")?));
    }
    match first_bad_of_create(turn, params) {
        Some(name) => Ok(Err(bad_parameter(alloc, name)?)),
        None => Ok(Ok(Json::List(entity_trees(alloc, turn, count, num)?))),
    }
}

// So many new entities with this setting, in a list of their own.
fn new_entities(alloc: Global, num: u32, setting: i64) -> Result<List<Entity>, Mem>
    ensures { IfOk result (λ es. es ≡ replicate num (new_entity setting)) }
{
    let mut new = List::new(alloc);
    for _made in 0..num {
        new.push(new_entity(setting))?;
    }
    Ok(new)
}

// The step after a request to begin that had this content as its reply.
pub fn step_after(content: &Result<Json, Text>, turn: Turn, step: i64, params: &Json) -> i64
    requires { IsStepOf turn step }
    ensures same { result ≡ if_taken content.now (step_in turn params.now) step }
    ensures in_range { IsStepOf turn result }
{
    if content.is_ok() {
        step_in(turn, params)
    } else {
        step
    }
}

// Creates the entities unless the request is refused; the content of the reply, or its failure.
pub fn created(
    alloc: Global,
    turn: Turn,
    entities: &mut List<Entity>,
    num: u32,
    model: &Text,
    params: &Json,
) -> Result<Result<Json, Text>, Mem>
    ensures content { IfOk result (λ content. content
        ≡ create_content turn (length entities.old) num model.now params.now) }
    ensures after { IfOk result (λ content. entities.new
        ≡ if_taken content
        (entities.old ++ replicate num (new_entity (setting_in turn params.now))) entities.old) }
    ensures err { OnErr result (entities.new ≡ entities.old) }
{
    match create_content(alloc, turn, entities.len(), num, model, params)? {
        Ok(content) => {
            add_entities(alloc, entities, num, setting_in(turn, params))?;
            Ok(Ok(content))
        }
        Err(text) => Ok(Err(text)),
    }
}

// Puts so many new entities with this setting behind the others.
fn add_entities(
    alloc: Global,
    entities: &mut List<Entity>,
    num: u32,
    setting: i64,
) -> Result<(), Mem>
    ensures ok { OnOk result (entities.new ≡ entities.old ++ replicate num (new_entity setting)) }
    ensures err { OnErr result (entities.new ≡ entities.old) }
{
    let new = new_entities(alloc, num, setting)?;
    let mut all = std::mem::replace(entities, List::new(alloc)).into_vec();
    let added = all.extend_from_slice(new.as_slice());
    *entities = List::from_vec(all);
    added?;
    Ok(())
}

// The message of this id.
pub fn message(id: u64, content: Result<Json, Text>) -> Message
    ensures { result ≡ message id content }
{
    match content {
        Ok(content) => Message::Success { id, content },
        Err(text) => Message::Failure { id, text },
    }
}

fn new_entity(setting: i64) -> Entity
    ensures { result ≡ new_entity setting }
{
    Entity {
        setting,
        state: setting,
        out: None,
        at: None,
    }
}

// The text of the failure where a parameter isn't taken.
fn bad_parameter(alloc: Global, name: &Text) -> Result<Text, Mem>
    ensures { IfOk result (λ t. t ≡ codes "bad parameter " ++ name.now) }
{
    let name = name.as_str();
    let text = format!(in alloc; "bad parameter {name}")?;
    Text::of(alloc, text.as_str())
}

// The descriptions of so many entities, where so many are there already.
fn entity_trees(alloc: Global, turn: Turn, count: usize, num: u32) -> Result<List<Json>, Mem>
    ensures { IfOk result (λ ts. ts ≡ map (entity_tree turn) (range_with_len count num)) }
{
    let mut items = List::new(alloc);
    for k in 0..num {
        items.push(entity_tree(alloc, turn, count as u128 + k as u128)?)?;
    }
    Ok(items)
}

// The description of the entity at this place.
fn entity_tree(alloc: Global, turn: Turn, place: u128) -> Result<Json, Mem>
    ensures { IfOk result (λ t. t ≡ entity_tree turn place) }
{
    let mut members = Members::new(alloc);
    put_entity(alloc, &mut members, turn, place)?;
    Ok(Json::Object(members))
}

fn put_entity(
    alloc: Global,
    members: &mut Members<Json>,
    turn: Turn,
    place: u128,
) -> Result<(), Mem>
    requires { members.old ≡ [] }
    ensures { OnOk result (tree.Object members.new ≡ entity_tree turn place) }
{
    let mut buffer = itoa::Buffer::new();
    put_text(alloc, members, "eid", buffer.format(place))?;
    put_text(alloc, members, "type", model_of(turn))
}
