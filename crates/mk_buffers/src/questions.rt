//! The inputs of a step, and the value of an attribute, out of what is held.
ghost use Rattle.std.specs.Prelude.{◌≡◌, ◌<◌, pos, ◌++◌, true, length, IfOk, IfSome, OnOk, Some, slice_get, option_map};
ghost use Rattle.mk_base.specs.Tiers.{IsUpTo, delayed, moment};
ghost use Rattle.mk_plan.specs.declared.Plan.{Plan};
ghost use Rattle.mk_plan.specs.Asks.{gives_attr};
ghost use Rattle.mk_plan.specs.Deliveries.{Supply};
ghost use Rattle.mk_plan.specs.Inputs.{latest, value_at, inputs};
ghost use Rattle.mk_buffers_log.specs.Logs.{by, arrival};
ghost use Rattle.mk_base.specs.Data.{IsValueText};
ghost use Rattle.mk_buffers.specs.Held.{since_for, initial_for};

use crate::buffers::Buffers;
use crate::inlets::{Inlet, input_of};
use crate::outlets::Outlet;
use mk_base::{Datum, List, Mem, SimNo, Text, Tier};
use mk_buffers_log::{Made, is_since};
use mk_plan::Input;

impl Buffers {
    ghost use Rattle.mk_buffers.specs.Standing.{StandFor, mark_of, least_mark, given, value_for, last_for};
    ghost use Rattle.mk_buffers.specs.inner.Standing.{HasGathered, IsAfterStart};

    /// The inputs of a step of `sim` at `at`, at or after its mark, where its step before was at `previous`: sorted by
    /// eid, attribute and source. Fails for want of memory alone.
    pub fn inputs_at(
        &self,
        sim: SimNo,
        previous: Option<Tier>,
        at: Tier,
    ) -> Result<List<Input>, Mem>
        ensures { (P : Plan) (S : Supply) → StandFor P self.now S → sim.0 < length P.sims
            → IsUpTo (mark_of self.now sim.0) at
            → IfOk result (λ ins. ins ≡ inputs P S sim.0 previous at) }
    {
        if (sim.0 as usize) < self.sims() {
            let mut inputs = self.gathered(sim, previous, at)?;
            self.sets[sim.0 as usize].add_inputs(previous, at, &mut inputs)?;
            Ok(inputs)
        } else {
            Ok(List::new(self.alloc))
        }
    }

    // What the connections to `sim` give its step, sorted.
    fn gathered(&self, sim: SimNo, previous: Option<Tier>, at: Tier) -> Result<List<Input>, Mem>
        requires { sim.0 < length self.now.inlets.items }
        ensures { IfOk result (λ ins. (l : _) × (slice_get self.now.inlets.items sim.0 ≡ Some l)
            × HasGathered self.now l.items previous at ins) }
    {
        let inlets = &self.inlets[sim.0 as usize];
        let mut inputs = List::with_room(self.alloc, inlets.len())?;
        for inlet in inlets {
            self.gather(inlet, previous, at, &mut inputs)?;
        }
        Ok(inputs)
    }

    // Adds what an inlet gives, if there is something.
    fn gather(
        &self,
        inlet: &Inlet,
        previous: Option<Tier>,
        at: Tier,
        inputs: &mut List<Input>,
    ) -> Result<(), Mem>
        ensures { OnOk result ((inputs.new ≡ inputs.old ++ given self.now inlet.now previous at)
            × IsAfterStart self.now inlet.now at) }
    {
        if let Some(value) = self.value_for(inlet, previous, at) {
            inputs.push(input_of(inlet, value)?)?;
        }
        Ok(())
    }

    /// The value of an entity's attribute, which some connection takes, that was made last up to `at`, a time at or
    /// after the least mark; `None` exactly where none was made. Takes no memory.
    pub fn value_at(&self, entity: u32, attr: &Text, at: Tier) -> Option<&Datum>
        ensures value { (P : Plan) (S : Supply) → StandFor P self.now S
            → gives_attr P entity attr.now ≡ true → IsUpTo (least_mark self.now) at
            → option_map (λ v. v.now) result ≡ value_at S at entity attr.now }
        ensures text { (P : Plan) (S : Supply) → StandFor P self.now S
            → gives_attr P entity attr.now ≡ true → IsUpTo (least_mark self.now) at
            → IfSome result (λ v. IsValueText v.now) }
    {
        match self.outlet(entity, attr) {
            Some(outlet) => value_of(&self.outlets[outlet], at),
            None => None,
        }
    }

    // What an inlet gives a step.
    fn value_for<'a>(
        &'a self,
        inlet: &'a Inlet,
        previous: Option<Tier>,
        at: Tier,
    ) -> Option<&'a Datum>
        ensures value { option_map (λ v. v.now) result ≡ value_for self.now inlet.now previous at }
        ensures begun { IsAfterStart self.now inlet.now at }
    {
        match self.last_for(inlet, at) {
            Some(made) => since(inlet, previous, made),
            None => initial_for(inlet, previous, at),
        }
    }

    // What the outlet of an inlet delivered last up to `at`.
    fn last_for(&self, inlet: &Inlet, at: Tier) -> Option<&Made>
        ensures { option_map (λ m. arrival inlet.now.via m.now) result
            ≡ last_for self.now inlet.now at }
    {
        match self.outlets.get(inlet.outlet) {
            Some(outlet) => outlet.log.latest(inlet.via, Some(self.until), at),
            None => None,
        }
    }
}

// The value of an output, if it comes after the previous step or the inlet persists.
fn since<'a>(inlet: &Inlet, previous: Option<Tier>, made: &'a Made) -> Option<&'a Datum>
    ensures value { option_map (λ v. v.now) result
        ≡ since_for inlet.now previous (arrival inlet.now.via made.now) }
    ensures begun { IsUpTo (moment (pos 0)) (delayed made.now.at inlet.now.via) }
{
    let arrival = made.at().after(inlet.via.via());
    if inlet.persistent || is_since(previous, arrival) {
        Some(made.value())
    } else {
        None
    }
}

// The value of an outlet that was made last up to `at`.
fn value_of(outlet: &Outlet, at: Tier) -> Option<&Datum>
    ensures { option_map (λ v. v.now) result
        ≡ option_map (λ t. t.value) (latest (by at outlet.now.log)) }
{
    match outlet.log.latest_made(at) {
        Some(made) => Some(made.value()),
        None => None,
    }
}

// The initial value, if there is one and it counts.
fn initial_for<'a>(inlet: &'a Inlet, previous: Option<Tier>, at: Tier) -> Option<&'a Datum>
    ensures { option_map (λ v. v.now) result ≡ initial_for inlet.now previous at }
{
    let start = Tier { time: 0, tier: 0 };
    match &inlet.initial {
        Some(value) if start.is_up_to(at) && (inlet.persistent || is_since(previous, start)) =>
            Some(value),
        _ => None,
    }
}
