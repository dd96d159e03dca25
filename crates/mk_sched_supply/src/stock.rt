//! The stock of a run.
ghost use Rattle.std.specs.Prelude.{◌≡◌, ◌<◌, ◌≤◌, ◌≤ℤ◌, pos, min, true, None, Some, length, List, IfOk, IfSome, OnOk, option_map, slice_get};
ghost use Rattle.mk_base.specs.Trees.{is_datum, is_in_range};
ghost use Rattle.mk_base.specs.declared.json.Json.{Json};
ghost use Rattle.mk_base.specs.Tiers.{latest_time};
ghost use Rattle.mk_plan.specs.declared.Plan.{Plan};
ghost use Rattle.mk_plan.specs.declared.Entry.{Entry};
ghost use Rattle.mk_plan.specs.declared.Entry.TheVariants.{Got};
ghost use Rattle.mk_plan.specs.declared.Message.{Message};
ghost use Rattle.mk_plan.specs.declared.Want.{Want};
ghost use Rattle.mk_plan.specs.Plans.{IsValidPlan, sim_count};
ghost use Rattle.mk_plan.specs.Turns.{wanted, wrong_data};
ghost use Rattle.mk_plan.specs.Acts.{outputs_in};
ghost use Rattle.mk_plan.specs.Acts as acts;
ghost use Rattle.mk_plan.specs.Deliveries.{Supply, supply};
ghost use Rattle.mk_plan.specs.Inputs.{inputs};
ghost use Rattle.mk_plan.specs.Sequential.{last_time};
ghost use Rattle.mk_plan.specs.Journals.{OpenTurn, View, empty_view, view, ended_turn, note_right};
ghost use Rattle.mk_plan.specs.Ready.{IsReady};
ghost use Rattle.mk_order.specs.Pending.{IsMarkOf};
ghost use Rattle.mk_sched_open.specs.Turns.{IsRight};
ghost use Rattle.mk_buffers.specs.Bounds.{most_kept};
ghost use Rattle.mk_buffers.specs.Standing.{HasRaised, HasSameMarks, StandFor, least_mark, outputs_held};
ghost use Rattle.mk_sched_supply.specs.Outputs.{AreData, AreOutputsIn, found_values};
ghost use Rattle.mk_base.specs.Limits.{greatest_tier};

use crate::feeds::{Feed, feeds_of};
use crate::outputs::{Outputs, outputs_of};
use mk_base::{Json, List, Mem, SimNo, Tier};
use mk_buffers::{Buffers, buffers_stand};
use mk_json::datum_of;
use mk_plan::{Input, Plan, Want};
use mk_plan_names::Names;
use std::alloc::Global;

/// What has been delivered in a run of a plan, as far as its questions can still reach it, and the names of the plan.
///
/// What it means is that it is the stock of the view of a journal (`IsStockOf`): each call that changes it says for
/// which entry it keeps that.
#[derive(Drop)]
pub struct Stock {
    pub(crate) alloc: Global,
    pub(crate) names: Names,
    pub(crate) buffers: Buffers,
    pub(crate) feeds: Vec<Feed>,
}

impl Stock {
    ghost use Rattle.mk_sched_supply.specs.Stock.{IsStockFor, IsStockOf, MayComeNext};
    ghost use Rattle.mk_sched_supply.specs.inner.Making.{HasSameRest, HasGiven};

    /// The stock of a run that has not begun. Fails for want of memory alone.
    pub fn new(alloc: Global, plan: &Plan) -> Result<Stock, Mem>
        requires { IsValidPlan plan.now }
        ensures { IfOk result (λ stock. IsStockOf plan.now empty_view stock) }
    {
        let names = Names::new(alloc, plan)?;
        let buffers = Buffers::new(alloc, plan)?;
        let feeds = feeds_of(alloc, plan)?;
        buffers_stand();
        Ok(Stock {
            alloc,
            names,
            buffers,
            feeds,
        })
    }

    /// What each GetData asks of the simulator: the attributes that some connection takes from its entities, each once,
    /// in byte order of the entity's name and then of the attribute's.
    pub fn wants(&self, sim: SimNo) -> &List<Want>
        requires { sim.0 < length self.now.feeds.items }
        ensures { (P : Plan) → IsStockFor P self.now → result.now ≡ wanted P sim.0 }
    {
        &self.feeds[sim.0 as usize].wants
    }

    /// The inputs of the step at `at` for which the simulator may be asked, where its step before was at `previous`:
    /// sorted by eid, attribute and source. Fails for want of memory alone.
    pub fn inputs_at(
        &self,
        sim: SimNo,
        previous: Option<Tier>,
        at: Tier,
    ) -> Result<List<Input>, Mem>
        ensures { (P : Plan) (V : View) → IsStockOf P V self.now → IsReady P V sim.0 at
            → previous ≡ last_time (V.acts sim.0)
            → IfOk result (λ ins. ins ≡ inputs P (supply P V.acts) sim.0 previous at) }
    {
        let mut inputs = self.buffers.inputs_at(sim, previous, at)?;
        inputs.trim();
        Ok(inputs)
    }

    /// What the data of a reply of the simulator give: a value for each want, and for each of its triggering
    /// connections in plan order whether it is given one. Each value is read once, in the order of the wants; of data
    /// that are right each is one that a simulator may give. Fails for want of memory alone.
    pub fn outputs<'a>(&self, sim: SimNo, content: &'a Json) -> Result<Outputs<'a>, Mem>
        ensures outputs { (P : Plan) → IsStockFor P self.now → sim.0 < sim_count P
            → IfOk result (λ outs. AreOutputsIn P sim.0 content.now outs) }
        ensures data { (P : Plan) (at : Tier) → IsStockFor P self.now → sim.0 < sim_count P
            → is_in_range content.now ≡ true → wrong_data (wanted P sim.0) at content.now ≡ None
            → IfOk result (λ outs. AreData (found_values outs)) }
    {
        match self.feeds.get(sim.0 as usize) {
            Some(feed) => outputs_of(self.alloc, feed, content),
            None => Ok(Outputs::none(self.alloc)),
        }
    }

    /// Takes the outputs of a turn of the simulator that ends, made at `made`. After want of memory the stock says
    /// nothing any more.
    pub fn take_outputs(&mut self, sim: SimNo, made: Tier, outputs: &Outputs) -> Result<(), Mem>
        requires early { pos 0 ≤ℤ made.time }
        requires late { made.time ≤ℤ latest_time }
        requires low { made.tier ≤ greatest_tier }
        requires data { AreData (found_values outputs.now) }
        ensures marks { HasSameMarks self.old.buffers self.new.buffers }
        ensures stock { (P : Plan) (J : List Entry) (m : Message) (T : OpenTurn) (content : Json)
            → MayComeNext P J (Got sim m) → IsRight P (view P J) sim.0 m T None
            → outputs_in (ended_turn T m) ≡ Some content
            → made ≡ acts.made (ended_turn T m) → AreOutputsIn P sim.0 content outputs.now
            → IsStockOf P (view P J) self.old
            → OnOk result (IsStockOf P (note_right P (view P J) sim.0 m T None) self.new) }
    {
        for place in 0..outputs.values.len() {
            self.take_output(sim, made, place, outputs.values[place])?;
        }
        Ok(())
    }

    // Takes the value, if there is one, for the want of the simulator at this place.
    fn take_output(
        &mut self,
        sim: SimNo,
        made: Tier,
        place: usize,
        value: Option<&Json>,
    ) -> Result<(), Mem>
        requires early { pos 0 ≤ℤ made.time }
        requires late { made.time ≤ℤ latest_time }
        requires low { made.tier ≤ greatest_tier }
        requires data { IfSome value (λ v. (is_datum v.now ≡ true) × (is_in_range v.now ≡ true)) }
        ensures given { (P : Plan) (S : Supply) (w : Want) → StandFor P self.old.buffers S
            → sim.0 < sim_count P → slice_get (wanted P sim.0) place ≡ Some w
            → OnOk result (HasGiven P sim.0 made w
            (option_map (λ v. v.now) value.entry) S self.new.buffers) }
        ensures rest { HasSameRest self.old self.new }
    {
        if let Some(value) = value {
            buffers_stand();
            let outlet = self.buffers.first_outlet(sim).saturating_add(place);
            self.buffers
                .deliver_to(outlet, made, datum_of(self.alloc, value)?)?;
        }
        Ok(())
    }

    /// Tells that the simulator can't step before `at`, so that it asks nothing before: its mark becomes the greater of
    /// it and `at`. Takes no memory.
    pub fn forget_before(&mut self, sim: SimNo, at: Tier)
        ensures stock { (P : Plan) (V : View) → IsStockOf P V self.old → sim.0 < sim_count P
            → IsMarkOf P V sim.0 at → IsStockOf P V self.new }
        ensures marks { (P : Plan) (V : View) → IsStockOf P V self.old → sim.0 < sim_count P
            → HasRaised sim.0 at self.old.buffers self.new.buffers }
    {
        self.buffers.forget_before(sim, at);
    }

    /// How many outputs are held; takes no memory. They are at most as many as there are connections, distinct source
    /// attributes, and late outputs of the acts so far: outputs whose making, or whose delivery over some connection
    /// before the run's end, is later than the least mark.
    pub fn kept(&self) -> usize
        ensures count { result ≡ min (outputs_held self.now.buffers) 18446744073709551615 }
        ensures few { (P : Plan) (V : View) → IsStockOf P V self.now
            → result ≤ most_kept P (supply P V.acts) (least_mark self.now.buffers) }
    {
        self.buffers.kept()
    }
}
