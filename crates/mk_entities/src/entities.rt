//! The entities of all simulators: the list of them, and how replies to `create` add to it.
ghost use Rattle.std.specs.Prelude.{◌≡◌, ◌<◌, ◌≤◌, [], Some, Ok, Err, length, slice_get, option_map, OnOk, IfErr, ◌⊎◌};
ghost use Rattle.mk_base.specs.Lists.{BeginsWith};
ghost use Rattle.mk_entities.specs.Creation.{entities_added, entity_number};
ghost use Rattle.mk_entities.specs.Sound.{AreSound};
ghost use Rattle.mk_entities.specs.Tied.{AreFirst};
ghost use Rattle.mk_base.specs.Limits.{most_entities};

use crate::described::families;
use crate::fault::CreateFault;
use crate::making::{Asked, extend};
use crate::names::{Names, grow};
use mk_base::{Json, List, Mem, SimNo, Text};
use mk_meta::Meta;
use std::alloc::Global;
use std::marker::Model;

/// An entity: its simulator; its group, unless it is a child; its eid; its model; and the numbers of the entities that
/// it is related to, those that its description names and its children, in rising order, each once.
#[derive(Drop)]
pub struct EntityInfo {
    pub sim: SimNo,
    pub group: Option<u32>,
    pub eid: Text,
    pub model: Text,
    pub related: List<u32>,
}

/// The entities of all simulators, numbered from 0 in order of creation, each followed by its children, depth first.
/// There are at most 10,000. Contracts see them as the list of them. A simulator's number is its place in a plan:
/// there is room for the eids of each simulator up to the greatest number given.
#[derive(Drop)]
pub struct Entities {
    alloc: Global,
    kept: Vec<EntityInfo>,
    names: Vec<Names>,
}

impl Model for Entities {
    ghost use Rattle.std.specs.Prelude.{List};
    ghost use Rattle.mk_entities.specs.declared.entities.EntityInfo.{EntityInfo};
    ghost use Rattle.mk_entities.specs.inner.Tied.{IsTied};

    ghost Value = { List EntityInfo };

    ghost view = { λ a. a.kept.items };

    ghost invariant = { λ a. IsTied a.kept.items a.names.items };
}

impl Entities {
    /// No entities; takes no memory.
    pub fn new(alloc: Global) -> Entities
        ensures { result ≡ [] }
    {
        Entities {
            alloc,
            kept: Vec::new(alloc),
            names: Vec::new(alloc),
        }
    }

    /// Adds the entities of a reply to `create` (mosaik 3, low-level API), in which a simulator was asked for `num` of
    /// a model, or names the first test that the reply fails. After a fault, want of memory too, there are those that
    /// there were.
    pub fn add(
        &mut self,
        sim: SimNo,
        group: u32,
        num: u32,
        model: &Text,
        meta: &Meta,
        reply: &Json,
    ) -> Result<(), CreateFault>
        ensures ok { OnOk result (entities_added self.old sim group num model.now meta.now reply.now
            ≡ Ok self.new) }
        ensures kept { OnOk result (BeginsWith self.new self.old) }
        ensures unchanged { IfErr result (λ e. self.new ≡ self.old) }
        ensures refused { IfErr result (λ e. (e ≡ CreateFault.Mem)
            ⊎ (entities_added self.old sim group num model.now meta.now reply.now ≡ Err e)) }
    {
        let outer = reply.items();
        if outer.len() != num as usize {
            return Err(CreateFault::Count(num, outer.len() as u64));
        }
        let entities = families(self.alloc, outer)?;
        let place = sim.0 as usize;
        grow(self.alloc, &mut self.names, place)?;
        let asked = Asked {
            sim,
            group,
            model,
            meta,
        };
        extend(
            self.alloc,
            &mut self.kept,
            &mut self.names[place],
            &asked,
            entities.as_slice(),
        )
    }

    /// How many entities there are.
    pub fn len(&self) -> usize
        ensures len { result ≡ length self.now }
        ensures few { length self.now ≤ most_entities }
    {
        self.kept.len()
    }

    /// All entities, in order of their numbers: each is the only one of its simulator with its eid, which is neither
    /// empty nor `time`, and its related numbers are those of entities, in rising order.
    pub fn as_slice(&self) -> &[EntityInfo]
        ensures same { result.now ≡ self.now }
        ensures few { length self.now ≤ most_entities }
        ensures distinct { AreFirst self.now }
        ensures sound { AreSound self.now }
    {
        self.kept.as_slice()
    }

    /// The entity with this number, which is the number that `find` gives of its simulator and eid.
    pub fn at(&self, i: usize) -> &EntityInfo
        requires { i < length self.now }
        ensures entity { slice_get self.now i ≡ Some result.now }
        ensures distinct { entity_number self.now result.now.sim result.now.eid ≡ Some i }
    {
        &self.kept[i]
    }

    /// The number of the entity of the simulator with this eid; `None` exactly where it has none.
    pub fn find(&self, sim: SimNo, eid: &str) -> Option<u32>
        ensures { result ≡ entity_number self.now sim eid.now }
    {
        match self.names.get(sim.0 as usize) {
            Some(names) => names.get(eid),
            None => None,
        }
    }

    /// The numbers of the entities that this one is related to, in rising order.
    pub fn related(&self, i: u32) -> &List<u32>
        requires { i < length self.now }
        ensures { option_map (λ e. e.related) (slice_get self.now i) ≡ Some result.now }
    {
        &self.kept[i as usize].related
    }
}
