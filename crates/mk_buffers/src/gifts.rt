//! Adding set values: each goes to the simulator of its entity.
ghost use Rattle.std.specs.Prelude.{ℕ, ◌<◌, length, IfOk, OnOk, OnErr};
ghost use Rattle.std.specs.Option.{ForSome};
ghost use Rattle.mk_plan.specs.declared.Plan.{Plan};
ghost use Rattle.mk_plan.specs.Deliveries.{Supply};
ghost use Rattle.mk_buffers.specs.Held.{with_gift};

use crate::buffers::Buffers;
use crate::sets::{Setting, Slot};
use mk_base::{Mem, Text, Tier};
use mk_plan::SetValue;

// A simulator, and the name of one of its entities.
#[derive(Drop)]
struct Target {
    sim: usize,
    eid: Text,
}

impl Buffers {
    ghost use Rattle.mk_buffers.specs.Standing.{StandFor, IsSourced, HasSameMarks, IsUnchanged};
    ghost use Rattle.mk_buffers.specs.inner.Standing.{HasSet, TargetOf};

    /// Adds a set value that is delivered at `at`: the text of a value, under the full id of an entity. At want of
    /// memory nothing changes.
    pub fn give(&mut self, at: Tier, set: SetValue) -> Result<(), Mem>
        ensures ok { (P : Plan) (S : Supply) (e : ℕ) → StandFor P self.old S → IsSourced P e set
            → OnOk result (StandFor P self.new (with_gift S e (record { at = at; given = set }))) }
        ensures err { OnErr result (IsUnchanged self.old self.new) }
        ensures marks { HasSameMarks self.old self.new }
    {
        match self.target_of(set.entity)? {
            Some(target) => self.give_to(target, at, set),
            // the plan has no such entity, so nobody can be given the value
            None => Ok(()),
        }
    }

    // Adds a set value for the simulator of its entity.
    fn give_to(&mut self, target: Target, at: Tier, set: SetValue) -> Result<(), Mem>
        requires sets { target.sim < length self.old.sets.items }
        requires marks { target.sim < length self.old.marks.marks }
        ensures ok { OnOk result
            (HasSet target.sim target.eid (record { at = at; given = set }) self.old self.new) }
        ensures err { OnErr result (IsUnchanged self.old self.new) }
        ensures marks { HasSameMarks self.old self.new }
    {
        let Target { sim, eid } = target;
        let SetValue {
            source,
            entity: _,
            attr,
            value,
        } = set;
        let mark = self.marks.of(sim);
        let fresh = Slot::new(self.alloc, eid, attr, source);
        self.sets[sim].take_in(fresh, Setting::new(at, value), mark)?;
        Ok(())
    }

    // The simulator of an entity, and the entity's name there; `None` where there is no such entity.
    fn target_of(&self, entity: u32) -> Result<Option<Target>, Mem>
        ensures tables { IfOk result (λ o. ForSome o (λ t. (t.sim < length self.now.sets.items)
            × (t.sim < length self.now.marks.marks))) }
        ensures target { IfOk result (λ o. TargetOf self.now entity o) }
    {
        match self.homes.get(entity as usize) {
            Some(home) => {
                if home.sim < self.sets.len() && home.sim < self.marks.len() {
                    Ok(Some(Target {
                        sim: home.sim,
                        eid: home.eid.copy()?,
                    }))
                } else {
                    Ok(None)
                }
            }
            None => Ok(None),
        }
    }
}
