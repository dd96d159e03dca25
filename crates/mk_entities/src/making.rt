//! The tests of a reply's entities, and what is made of them.
ghost use Rattle.std.specs.Prelude.{◌≡◌, ◌+◌, ◌<◌, ◌≤◌, [], ◌∷◌, ◌++◌, None, Ok, Err, length, map, take, not, is_some, unwrap_or, filter_map, option_map, IfOk, IfErr, IfSome, OnOk, ◌⊎◌};
ghost use Rattle.std.specs.List.{cons_option, find, list_any};
ghost use Rattle.mk_base.specs.Lists.{BeginsWith, same_text};
ghost use Rattle.mk_entities.specs.Creation.{entity_fault, first_there, has_type, is_model_of, rel_fault, with_entities};
ghost use Rattle.mk_entities.specs.inner.Making.{first_fault, made_by, named_from, number_in, outcome, related_by, with_numbers};
ghost use Rattle.mk_entities.specs.inner.Tied.{numbered};
ghost use Rattle.mk_base.specs.Limits.{most_entities};

use crate::described::Described;
use crate::entities::EntityInfo;
use crate::fault::CreateFault;
use crate::names::Names;
use mk_base::{List, MOST_ENTITIES, Mem, SimNo, Text};
use mk_meta::{Meta, ModelMeta};
use std::alloc::Global;
use std::collections::BTreeSet;

// What a simulator was asked to create: a group of entities of this model of its metadata.
#[derive(Drop)]
pub struct Asked<'a> {
    pub sim: SimNo,
    pub group: u32,
    pub model: &'a Text,
    pub meta: &'a Meta,
}

// Adds what a reply describes to the entities and to the names of their simulator, or nothing at a fault.
pub fn extend(
    alloc: Global,
    kept: &mut Vec<EntityInfo>,
    names: &mut Names,
    asked: &Asked,
    entities: &[Described],
) -> Result<(), CreateFault>
    requires few { length kept.old.items ≤ most_entities }
    requires tied { names.old ≡ numbered asked.now.sim.0 0 kept.old.items }
    ensures ok { OnOk result
        (with_entities kept.old.items asked.now.sim asked.now.group asked.now.model.now
        asked.now.meta.now entities.now ≡ Ok kept.new.items) }
    ensures few { length kept.new.items ≤ most_entities }
    ensures tied { names.new ≡ numbered asked.now.sim.0 0 kept.new.items }
    ensures kept { OnOk result (BeginsWith kept.new.items kept.old.items) }
    ensures unchanged { IfErr result (λ e. kept.new.items ≡ kept.old.items) }
    ensures refused { IfErr result (λ e. (e ≡ CreateFault.Mem)
        ⊎ (with_entities kept.old.items asked.now.sim asked.now.group asked.now.model.now
        asked.now.meta.now entities.now ≡ Err e)) }
{
    let before = names.len();
    match put_entities(alloc, kept, names, asked, entities) {
        Ok(None) => Ok(()),
        Ok(Some(fault)) => Err(back(names, before, fault)),
        Err(e) => Err(back(names, before, CreateFault::from(e))),
    }
}

// Takes off the names that were put before the fault.
fn back(names: &mut Names, before: usize, fault: CreateFault) -> CreateFault
    ensures names { names.new ≡ take before names.old }
    ensures fault { result ≡ fault }
{
    names.truncate(before);
    fault
}

// The same; at a fault and at want of memory the names may be more than before.
fn put_entities(
    alloc: Global,
    kept: &mut Vec<EntityInfo>,
    names: &mut Names,
    asked: &Asked,
    entities: &[Described],
) -> Result<Option<CreateFault>, Mem>
    requires few { length kept.old.items ≤ most_entities }
    requires tied { names.old ≡ numbered asked.now.sim.0 0 kept.old.items }
    ensures told { IfOk result
        (λ fault. with_entities kept.old.items asked.now.sim asked.now.group asked.now.model.now
        asked.now.meta.now entities.now ≡ outcome kept.new.items fault) }
    ensures few { length kept.new.items ≤ most_entities }
    ensures tied { result ≡ Ok None → names.new ≡ numbered asked.now.sim.0 0 kept.new.items }
    ensures kept { result ≡ Ok None → BeginsWith kept.new.items kept.old.items }
    ensures refused { IfOk result (λ fault. IfSome fault (λ e. kept.new.items ≡ kept.old.items)) }
    ensures unchanged { IfErr result (λ e. kept.new.items ≡ kept.old.items) }
    ensures begins { BeginsWith names.new names.old }
{
    if let Some(fault) = name_all(alloc, kept.len(), names, asked, entities)? {
        return Ok(Some(fault));
    }
    if let Some(fault) = first_rel_fault(alloc, names, entities)? {
        return Ok(Some(fault));
    }
    let mut made = make_all(alloc, names, asked, entities)?;
    kept.append(&mut made)?;
    Ok(None)
}

// Puts the eids of a reply's entities, as far as none of them fails a test.
fn name_all(
    alloc: Global,
    count: usize,
    names: &mut Names,
    asked: &Asked,
    entities: &[Described],
) -> Result<Option<CreateFault>, Mem>
    requires { count ≤ most_entities }
    ensures told { IfOk result (λ fault. fault
        ≡ first_fault names.old count asked.now.model.now asked.now.meta.now entities.now) }
    ensures named { result ≡ Ok None → names.new ≡ names.old ++ named_from count entities.now }
    ensures few { result ≡ Ok None → count + length entities.now ≤ most_entities }
    ensures begins { BeginsWith names.new names.old }
{
    for (n, entity) in entities.iter().enumerate() {
        if let Some(fault) = name(alloc, count, n, names, asked, entity)? {
            return Ok(Some(fault));
        }
    }
    Ok(None)
}

// Puts the eid of a reply's n-th entity, unless the entity fails a test.
fn name(
    alloc: Global,
    count: usize,
    n: usize,
    names: &mut Names,
    asked: &Asked,
    entity: &Described,
) -> Result<Option<CreateFault>, Mem>
    requires { count + n ≤ most_entities }
    ensures told { IfOk result (λ fault. fault
        ≡ entity_fault (number_in names.old)
        (count + n) asked.now.model.now asked.now.meta.now n entity.now) }
    ensures named { result ≡ Ok None
        → names.new ≡ names.old ++ (unwrap_or entity.now.eid [], count + n) ∷ [] }
    ensures room { result ≡ Ok None → count + n < most_entities }
    ensures begins { BeginsWith names.new names.old }
{
    let Some(eid) = &entity.eid else {
        return Ok(Some(CreateFault::NoEid(n as u32)));
    };
    if names.get(eid.as_str()).is_some() {
        return Ok(Some(CreateFault::TwiceEid(eid.copy()?)));
    }
    if !has_type(asked, entity) {
        return Ok(Some(CreateFault::OfType(eid.copy()?)));
    }
    if count + n >= MOST_ENTITIES as usize {
        return Ok(Some(CreateFault::TooMany(u64::from(MOST_ENTITIES) + 1)));
    }
    names.put(alloc, eid, (count + n) as u32)?;
    Ok(None)
}

fn has_type(asked: &Asked, entity: &Described) -> bool
    ensures { result ≡ has_type asked.now.model.now asked.now.meta.now entity.now }
{
    match &entity.kind {
        Some(kind) => is_model_of(asked, entity, kind),
        None => false,
    }
}

fn is_model_of(asked: &Asked, entity: &Described, kind: &Text) -> bool
    ensures { result ≡ is_model_of asked.now.model.now asked.now.meta.now entity.now kind.now }
{
    if entity.is_child {
        is_model(&asked.meta.models, kind)
    } else {
        kind.bytes() == asked.model.bytes()
    }
}

fn is_model(models: &List<ModelMeta>, kind: &Text) -> bool
    ensures { result ≡ list_any (λ m. same_text m.name kind.now) models.now }
{
    models
        .as_slice()
        .iter()
        .any(|m| m.name.bytes() == kind.bytes())
}

// The first fault in what the entities' `rel` name.
fn first_rel_fault(
    alloc: Global,
    names: &Names,
    entities: &[Described],
) -> Result<Option<CreateFault>, Mem>
    ensures { IfOk result (λ fault. fault
        ≡ first_there (map (rel_fault (number_in names.now)) entities.now)) }
{
    for entity in entities {
        if let Some(fault) = rel_fault(alloc, names, entity)? {
            return Ok(Some(fault));
        }
    }
    Ok(None)
}

fn rel_fault(alloc: Global, names: &Names, entity: &Described) -> Result<Option<CreateFault>, Mem>
    ensures { IfOk result (λ fault. fault ≡ rel_fault (number_in names.now) entity.now) }
{
    let Some(rel) = &entity.rel else {
        let eid = text_or_empty(alloc, &entity.eid)?;
        return Ok(Some(CreateFault::Related(eid, Text::of(alloc, "")?)));
    };
    let Some(text) = first_unknown(names, rel) else {
        return Ok(None);
    };
    let eid = text_or_empty(alloc, &entity.eid)?;
    Ok(Some(CreateFault::Related(eid, text.copy()?)))
}

// The first of the texts that is no eid.
fn first_unknown<'a>(names: &Names, texts: &'a List<Text>) -> Option<&'a Text>
    ensures { option_map (λ t. t.now) result
        ≡ find (λ text. not (is_some (number_in names.now text))) texts.now }
{
    for text in texts.as_slice() {
        if names.get(text.as_str()).is_none() {
            return Some(text);
        }
    }
    None
}

fn text_or_empty(alloc: Global, text: &Option<Text>) -> Result<Text, Mem>
    ensures { IfOk result (λ t. t ≡ unwrap_or text.now []) }
{
    match text {
        Some(text) => text.copy(),
        None => Text::of(alloc, ""),
    }
}

// What is added of a reply's entities, all of whose eids are in the names.
fn make_all(
    alloc: Global,
    names: &Names,
    asked: &Asked,
    entities: &[Described],
) -> Result<Vec<EntityInfo>, Mem>
    ensures { IfOk result (λ made. made.items
        ≡ map (made_by (number_in names.now) asked.now.sim asked.now.group) entities.now) }
{
    let mut made = Vec::new(alloc);
    for entity in entities {
        made.push(make(alloc, names, asked, entity)?)?;
    }
    Ok(made)
}

fn make(alloc: Global, names: &Names, asked: &Asked, entity: &Described) -> Result<EntityInfo, Mem>
    ensures { IfOk result (λ made. made
        ≡ made_by (number_in names.now) asked.now.sim asked.now.group entity.now) }
{
    let eid = text_or_empty(alloc, &entity.eid)?;
    let model = text_or_empty(alloc, &entity.kind)?;
    let related = related_of(alloc, names, entity)?;
    let group = if entity.is_child {
        None
    } else {
        Some(asked.group)
    };
    Ok(EntityInfo {
        sim: asked.sim,
        group,
        eid,
        model,
        related,
    })
}

// The numbers of what an entity's `rel` names and of its children, in rising order.
fn related_of(alloc: Global, names: &Names, entity: &Described) -> Result<List<u32>, Mem>
    ensures { IfOk result (λ numbers. numbers ≡ related_by (number_in names.now) entity.now) }
{
    let mut numbers = BTreeSet::new(alloc);
    put_rel(names, &entity.rel, &mut numbers)?;
    put_numbers(names, &entity.children, &mut numbers)?;
    listed(alloc, &numbers)
}

fn put_rel(names: &Names, rel: &Option<List<Text>>, into: &mut BTreeSet<u32>) -> Result<(), Mem>
    ensures { OnOk result (into.new.keys
        ≡ with_numbers into.old.keys (filter_map (number_in names.now) (unwrap_or rel.now []))) }
{
    match rel {
        Some(texts) => put_numbers(names, texts, into),
        None => Ok(()),
    }
}

fn put_numbers(names: &Names, texts: &List<Text>, into: &mut BTreeSet<u32>) -> Result<(), Mem>
    ensures { OnOk result (into.new.keys
        ≡ with_numbers into.old.keys (filter_map (number_in names.now) texts.now)) }
{
    for text in texts.as_slice() {
        put_number(names.get(text.as_str()), into)?;
    }
    Ok(())
}

fn put_number(number: Option<u32>, into: &mut BTreeSet<u32>) -> Result<(), Mem>
    ensures { OnOk result (into.new.keys ≡ with_numbers into.old.keys (cons_option number [])) }
{
    if let Some(number) = number {
        into.insert(number)?;
    }
    Ok(())
}

/// The numbers of a set, in their order.
pub fn listed(alloc: Global, numbers: &BTreeSet<u32>) -> Result<List<u32>, Mem>
    ensures { IfOk result (λ list. list ≡ numbers.now.keys) }
{
    let mut list = List::new(alloc);
    for number in numbers.iter() {
        list.push(*number)?;
    }
    Ok(list)
}
