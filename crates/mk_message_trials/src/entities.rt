//! Replies to `create` that add entities.
use crate::texts::tree_of;
use mk_base::{SimNo, Text};
use mk_entities::{CreateFault, Entities, EntityInfo};
use mk_meta::{Meta, MetaFault, read_meta};
use std::alloc::{AllocError, Global};

const MODELS: &str =
    "{\"api_version\":\"3.0\",\"models\":{\"M\":{\"public\":true,\"params\":[],\"attrs\":[]},\"N\":{\"public\":false,\"params\":[],\"attrs\":[]}}}";

const ONE: &str = "[{\"eid\":\"a\",\"type\":\"M\"}]";

const TWO: &str =
    "[{\"eid\":\"a\",\"type\":\"M\",\"rel\":[\"d\",\"c\",\"d\"],\"children\":[{\"eid\":\"b\",\"type\":\"N\",\"children\":[{\"eid\":\"c\",\"type\":\"M\"}],\"rel\":null}]},{\"eid\":\"d\",\"type\":\"M\",\"rel\":[],\"children\":null}]";

// Adds a simulator's reply to a `create` of `num` of model M by the group 7.
fn add(
    alloc: Global,
    entities: &mut Entities,
    meta: &Meta,
    sim: u32,
    num: u32,
    reply: &str,
) -> Result<(), CreateFault> {
    let model = Text::of(alloc, "M")?;
    let reply = tree_of(alloc, reply);
    entities.add(SimNo(sim), 7, num, &model, meta, &reply)
}

// The metadata of models M and N.
fn models(alloc: Global) -> Result<Meta, MetaFault> {
    let reply = tree_of(alloc, MODELS);
    read_meta(alloc, &reply)
}

// The entities of two replies.
fn added(alloc: Global, meta: &Meta) -> Result<Entities, CreateFault> {
    let mut entities = Entities::new(alloc);
    add(alloc, &mut entities, meta, 1, 1, ONE)?;
    add(alloc, &mut entities, meta, 0, 2, TWO)?;
    Ok(entities)
}

fn are_found(entities: &Entities) -> bool {
    entities.find(SimNo(0), "a") == Some(1)
        && entities.find(SimNo(1), "a") == Some(0)
        && entities.find(SimNo(0), "c") == Some(3)
        && entities.find(SimNo(1), "d").is_none()
}

// Of five entities, which are related, and which have a group.
fn are_kept(entities: &Entities) -> bool {
    entities.len() == 5
        && entities.related(1).as_slice() == [2, 3, 4].as_slice()
        && entities.related(2).as_slice() == [3].as_slice()
        && entities.at(2).group.is_none()
        && entities.at(4).group == Some(7)
        && entities.at(2).model.as_str() == "N"
}

fn is_last(entities: &[EntityInfo], eid: &str) -> bool {
    match entities {
        [_, _, _, _, last] => last.eid.as_str() == eid,
        _ => false,
    }
}

fn are_numbered(alloc: Global, meta: &Meta) -> bool {
    match added(alloc, meta) {
        Ok(entities) => {
            are_found(&entities) && are_kept(&entities) && is_last(entities.as_slice(), "d")
        }
        Err(_) => false,
    }
}

fn are_right(alloc: Global) -> bool {
    match models(alloc) {
        Ok(meta) => are_numbered(alloc, &meta),
        Err(_) => false,
    }
}

#[test]
fn entities_are_numbered_depth_first(rt: HostRuntime) {
    assert!(rt; are_right(rt.alloc()));
}

// Appends an entity of model M to a reply's list.
fn push_entity(alloc: Global, reply: &mut String, number: u32) -> Result<(), AllocError> {
    if number > 0 {
        reply.push_str(",")?;
    }
    let eid = number.to_string(alloc)?;
    reply.push_str("{\"type\":\"M\",\"eid\":\"")?;
    reply.push_str(eid.as_str())?;
    reply.push_str("\"}")
}

// A reply of so many entities.
fn many(alloc: Global, count: u32) -> Result<String, AllocError> {
    let mut reply = String::from_str(alloc, "[")?;
    for number in 0..count {
        push_entity(alloc, &mut reply, number)?;
    }
    reply.push_str("]")?;
    Ok(reply)
}

// Whether so many are refused as too many, and none is added.
fn is_too_many(alloc: Global, meta: &Meta, count: u32, reply: &str) -> bool {
    let mut entities = Entities::new(alloc);
    match add(alloc, &mut entities, meta, 0, count, reply) {
        Err(CreateFault::TooMany(told)) => told == u64::from(count) && entities.len() == 0,
        _ => false,
    }
}

fn is_refused(alloc: Global, meta: &Meta) -> bool {
    match many(alloc, 10001) {
        Ok(reply) => is_too_many(alloc, meta, 10001, reply.as_str()),
        Err(_) => false,
    }
}

fn are_too_many(alloc: Global) -> bool {
    match models(alloc) {
        Ok(meta) => is_refused(alloc, &meta),
        Err(_) => false,
    }
}

#[test]
fn there_are_at_most_ten_thousand(rt: HostRuntime) {
    assert!(rt; are_too_many(rt.alloc()));
}
