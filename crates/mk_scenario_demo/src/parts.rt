//! The parts of a scenario, each by a few texts.
ghost use Rattle.std.specs.Prelude.{◌≡◌, [], ◌∷◌, pos, IfOk};
ghost use Rattle.mk_base.specs.declared.json.Json as tree;
ghost use Rattle.mk_scenario_demo.specs.Demo.{block, group, pair, sim};

use mk_base::{Json, List, Mem, Members, SimNo, Text, Via};
use mk_scenario::{AttrPair, Begin, Block, Group, Place, SimPart};
use std::alloc::Global;

// An object without members.
pub fn nothing(alloc: Global) -> Json
    ensures { result ≡ tree.Object [] }
{
    Json::Object(Members::new(alloc))
}

// An object of one whole number.
pub fn one(alloc: Global, name: &str, value: u32) -> Result<Json, Mem>
    ensures { IfOk result (λ t. t ≡ tree.Object ((name.now, tree.Whole (pos value)) ∷ [])) }
{
    let mut members = Members::new(alloc);
    members.put(Text::of(alloc, name)?, Json::Whole(value as i128))?;
    Ok(Json::Object(members))
}

pub fn sim(alloc: Global, id: &str, kind: &str, params: Json) -> Result<SimPart, Mem>
    ensures { IfOk result (λ s. s ≡ sim id.now kind.now params) }
{
    Ok(SimPart {
        id: Text::of(alloc, id)?,
        begin: Begin::Local(Text::of(alloc, kind)?),
        params,
        initial: List::new(alloc),
    })
}

pub fn group(
    alloc: Global,
    id: &str,
    place: u32,
    model: &str,
    num: u32,
    params: Json,
) -> Result<Group, Mem>
    ensures { IfOk result (λ g. g ≡ group id.now place model.now num params) }
{
    Ok(Group {
        id: Text::of(alloc, id)?,
        sim: SimNo(place),
        model: Text::of(alloc, model)?,
        num,
        params,
    })
}

// A connection of all entities of two groups, from one attribute to one.
pub fn block(
    alloc: Global,
    from: u32,
    to: u32,
    source: &str,
    target: &str,
    via: Via,
) -> Result<Block, Mem>
    ensures { IfOk result (λ b. b ≡ block from to (pair source.now target.now) via) }
{
    let mut attrs = List::new(alloc);
    attrs.push(AttrPair {
        from: Text::of(alloc, source)?,
        to: Text::of(alloc, target)?,
    })?;
    Ok(Block {
        from: Place::Whole(from),
        to: Place::Whole(to),
        attrs,
        via,
        async_requests: false,
        initial: nothing(alloc),
    })
}
