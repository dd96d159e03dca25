//! Adding outputs: each goes to the outlet of its attribute, which gives up what it overtakes.
ghost use Rattle.std.specs.Prelude.{◌≡◌, ℕ, ◌≤◌, ◌<◌, pos, ◌≤ℤ◌, true, length, OnOk, OnErr, List};
ghost use Rattle.mk_plan.specs.declared.Plan.{Plan};
ghost use Rattle.mk_plan.specs.Asks.{gives_attr};
ghost use Rattle.mk_plan.specs.Deliveries.{Supply};
ghost use Rattle.mk_base.specs.Data.{IsValueText};
ghost use Rattle.mk_base.specs.Tiers.{latest_time};
ghost use Rattle.mk_buffers.specs.Held.{with_output};
ghost use Rattle.mk_base.specs.Limits.{greatest_tier};

use crate::buffers::Buffers;
use crate::forgetting::least_of;
use mk_base::{Datum, Mem, Text, Tier};

impl Buffers {
    ghost use Rattle.mk_buffers.specs.Standing.{HasKey, StandFor, HasSameMarks, IsUnchanged};
    ghost use Rattle.mk_buffers.specs.inner.Standing.{Delivers, IsNoted, HasNoted};

    /// Adds an output of an entity's attribute that some connection takes, made at `at`: the text of a value. At want
    /// of memory nothing changes.
    pub fn deliver(&mut self, entity: u32, attr: &Text, at: Tier, value: Datum) -> Result<(), Mem>
        requires early { pos 0 ≤ℤ at.time }
        requires late { at.time ≤ℤ latest_time }
        requires low { at.tier ≤ greatest_tier }
        ensures ok { (P : Plan) (S : Supply) → StandFor P self.old S
            → gives_attr P entity attr.now ≡ true → IsValueText value
            → OnOk result (StandFor P self.new
            (with_output S entity attr.now (record { at = at; value = value }))) }
        ensures err { OnErr result (IsUnchanged self.old self.new) }
        ensures marks { HasSameMarks self.old self.new }
    {
        match self.outlet(entity, attr) {
            Some(outlet) => self.deliver_to(outlet, at, value),
            // no connection takes the attribute, so nobody can be given the value
            None => Ok(()),
        }
    }

    /// Adds an output of the attribute whose outlet this is, made at `at`: the text of a value. At want of memory
    /// nothing changes.
    pub fn deliver_to(&mut self, outlet: usize, at: Tier, value: Datum) -> Result<(), Mem>
        requires early { pos 0 ≤ℤ at.time }
        requires late { at.time ≤ℤ latest_time }
        requires low { at.tier ≤ greatest_tier }
        ensures ok { (P : Plan) (S : Supply) (entity : ℕ) (attr : List ℕ) → StandFor P self.old S
            → HasKey self.old entity attr outlet → IsValueText value
            → OnOk result (StandFor P self.new
            (with_output S entity attr (record { at = at; value = value }))) }
        ensures err { OnErr result (IsUnchanged self.old self.new) }
        ensures marks { HasSameMarks self.old self.new }
    {
        if outlet < self.outlets.len() {
            self.take_in(outlet, at, value)
        } else {
            // there is no such outlet, so nobody can be given the value
            Ok(())
        }
    }

    // Adds an output at the outlet.
    fn take_in(&mut self, outlet: usize, at: Tier, value: Datum) -> Result<(), Mem>
        requires there { outlet < length self.old.outlets.items }
        requires early { pos 0 ≤ℤ at.time }
        requires late { at.time ≤ℤ latest_time }
        requires low { at.tier ≤ greatest_tier }
        ensures ok { OnOk result
            (Delivers self.old self.new outlet (record { at = at; value = value })) }
        ensures err { OnErr result (IsUnchanged self.old self.new) }
        ensures marks { HasSameMarks self.old self.new }
    {
        let mark = self.marks.least();
        self.outlets[outlet].take_in(at, value, &self.until, mark)?;
        self.note(outlet);
        Ok(())
    }

    // Notes when the outlet has to be looked at again.
    fn note(&mut self, outlet: usize)
        requires { outlet < length self.old.outlets.items }
        ensures same { IsNoted self.old self.new }
        ensures noted { HasNoted outlet self.old self.new }
    {
        let found = &self.outlets[outlet];
        let next = found.next_mark(&self.until, self.marks.least());
        let sim = found.sim;
        let least = least_of(self.next_of(sim), next);
        self.look_again(sim, least);
    }
}
