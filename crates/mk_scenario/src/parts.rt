//! What a scenario is made of.
ghost use Rattle.std.specs.Prelude.{◌≡◌};
ghost use Rattle.mk_scenario.specs.Ids.{id_of_sim};

use mk_base::{Json, List, SimNo, Text, Via};

/// How a simulator is begun: a command's template, a port of this machine at which it listens, or a kind within the
/// program.
#[derive(Drop)]
pub enum Begin {
    Command(Text),
    Connect(u16),
    Local(Text),
}

/// A simulator: its id, how it is begun, the parameters of `init` as an object, and the times at which it is due
/// besides, in the scenario's unit.
#[derive(Drop)]
pub struct SimPart {
    pub id: Text,
    pub begin: Begin,
    pub params: Json,
    pub initial: List<i64>,
}

/// A group of `num` entities of one model, made by one `create` with these parameters.
#[derive(Drop)]
pub struct Group {
    pub id: Text,
    pub sim: SimNo,
    pub model: Text,
    pub num: u32,
    pub params: Json,
}

/// One side of a connection: a group's entities, the entity of a group at an index, or an entity by its simulator and
/// eid.
#[derive(Drop)]
pub enum Place {
    Whole(u32),
    One(u32, u32),
    Full(SimNo, Text),
}

/// An output attribute and the input attribute that it feeds.
#[derive(Drop)]
pub struct AttrPair {
    pub from: Text,
    pub to: Text,
}

/// A `connect` table: its two sides, its pairs of attributes, when it delivers, whether the right side may ask the left
/// for data and set them, and the initial values by source attribute, as an object.
#[derive(Drop)]
pub struct Block {
    pub from: Place,
    pub to: Place,
    pub attrs: List<AttrPair>,
    pub via: Via,
    pub async_requests: bool,
    pub initial: Json,
}

/// A scenario: the end of its time, the last round that a same-time loop may have, counted from 0, how many entries a
/// journal may have, and its parts.
#[derive(Drop)]
pub struct Scenario {
    pub until: i64,
    pub loops: u32,
    pub entries: u32,
    pub sims: List<SimPart>,
    pub groups: List<Group>,
    pub blocks: List<Block>,
}

/// The id of the simulator of this number; no text where there is none.
pub fn id_of_sim(sims: &[SimPart], sim: usize) -> &str
    ensures { result.now ≡ id_of_sim sims.now sim }
{
    match sims.get(sim) {
        Some(part) => part.id.as_str(),
        None => "",
    }
}
