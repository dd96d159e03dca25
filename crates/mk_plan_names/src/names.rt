//! What an index of names answers.
ghost use Rattle.std.specs.Prelude.{◌≡◌, ◌<◌, ◌^◌, length, IfOk, IfSome};
ghost use Rattle.mk_plan.specs.declared.Plan.{Plan};
ghost use Rattle.mk_plan.specs.Plans.{HasDistinctNames, RefersInside, full_id, has_pair};
ghost use Rattle.mk_plan.specs.Asks.{entity_of, gives_attr};
ghost use Rattle.mk_plan_names.specs.Names.{AreNamesOf};

use crate::index::Names;
use crate::making::{attrs_of, ids_of, pairs_of};
use mk_base::{Mem, SimNo, Text};
use mk_plan::Plan;
use std::alloc::Global;

impl Names {
    /// The names of a plan. Fails for want of memory alone.
    pub fn new(alloc: Global, plan: &Plan) -> Result<Names, Mem>
        requires references { RefersInside plan.now }
        requires names { HasDistinctNames plan.now }
        requires few { length plan.now.entities < 2 ^ 32 }
        ensures { IfOk result (λ n. AreNamesOf plan.now n) }
    {
        let ids = ids_of(alloc, plan)?;
        let attrs = attrs_of(alloc, plan)?;
        let pairs = pairs_of(alloc, &plan.asyncs)?;
        Ok(Names { ids, attrs, pairs })
    }

    /// The entity with this full id; `None` exactly where the plan has none. Takes no memory.
    pub fn find(&self, full_id: &Text) -> Option<u32>
        ensures entity { (P : Plan) → AreNamesOf P self.now → result ≡ entity_of P full_id.now }
        ensures there { IfSome result (λ e. e < length self.now.ids.keys) }
    {
        match self.ids.get_index_of(full_id.as_str()) {
            Some(place) => Some(place as u32),
            None => None,
        }
    }

    /// The full id of an entity (mosaik 3): its simulator's id, a dot, its own eid. Takes no memory.
    pub fn full_id(&self, entity: u32) -> &str
        requires { entity < length self.now.ids.keys }
        ensures { (P : Plan) → AreNamesOf P self.now → result.now ≡ full_id P entity }
    {
        self.ids.as_slice()[entity as usize].as_str()
    }

    /// Whether some connection takes the attribute from the entity. Takes no memory.
    pub fn gives(&self, entity: u32, attr: &Text) -> bool
        ensures { (P : Plan) → AreNamesOf P self.now → result ≡ gives_attr P entity attr.now }
    {
        match self.attrs.get(entity as usize) {
            Some(attrs) => attrs.contains(attr.as_str()),
            None => false,
        }
    }

    /// Whether there is an asynchronous connection from the one simulator to the other. Takes no memory.
    pub fn has_pair(&self, from: SimNo, to: SimNo) -> bool
        ensures { (P : Plan) → AreNamesOf P self.now → result ≡ has_pair P from.0 to.0 }
    {
        self.pairs.contains(&(from.0, to.0))
    }
}
