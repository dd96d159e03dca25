//! What a request in a step is answered.
ghost use Rattle.std.specs.Prelude.{◌≡◌, ℕ, ◌≤ℤ◌, ◌≤◌, pos, true, All, IfOk, IsSome, OnOk, Some, List, option_map};
ghost use Rattle.std.specs.List.{list_all};
ghost use Rattle.mk_base.specs.Tiers.{IsUpTo, latest_time};
ghost use Rattle.mk_base.specs.Trees.{is_in_range};
ghost use Rattle.mk_plan.specs.declared.Plan.{Plan};
ghost use Rattle.mk_plan.specs.declared.Entry.{Entry};
ghost use Rattle.mk_plan.specs.declared.Entry.TheVariants.{Got};
ghost use Rattle.mk_plan.specs.declared.Message.TheVariants.{Ask};
ghost use Rattle.mk_plan.specs.declared.Place.{Place};
ghost use Rattle.mk_plan.specs.Plans.{IsValidPlan, RefersInside};
ghost use Rattle.mk_plan.specs.Asks.{content_text, knows};
ghost use Rattle.mk_plan.specs.Deliveries.{Supply, supply};
ghost use Rattle.mk_plan.specs.Inputs.{value_at};
ghost use Rattle.mk_plan.specs.Sequential.{response};
ghost use Rattle.mk_plan.specs.Journals.{OpenTurn, View, note_right, note_sent, view};
ghost use Rattle.mk_plan_names.specs.Names.{AreNamesOf};
ghost use Rattle.mk_buffers.specs.Standing.{HasSameMarks, StandFor, least_mark};
ghost use Rattle.mk_async.specs.Asked.{IsGivenBy, asked_in, is_asked_in_range};
ghost use Rattle.mk_sched_open.specs.Turns.{IsRight};
ghost use Rattle.mk_base.specs.Limits.{greatest_tier};

use crate::stock::Stock;
use mk_async::{Asked, data_content, given_values, judge, plain_content};
use mk_base::{Datum, Json, List, Mem, SimNo, Text, Tier, Via};
use mk_plan::{Item, Plan, SetValue};

impl Stock {
    ghost use Rattle.mk_sched_supply.specs.Stock.{IsStockOf, MayComeNext};
    ghost use Rattle.mk_sched_supply.specs.inner.Making.{HasSameRest};
    ghost use Rattle.mk_sched_supply.specs.Asking.{IsStepOpen};
    ghost use Rattle.mk_sched_supply.specs.inner.Gifts.{HasGivenAll, HasGivenOf, IsAnswerBy, gifts_in, wants_data};

    /// The item that answers a request in an open step of the simulator at `at`: its content, or the number of the
    /// first of four tests that the request fails (mosaik 3, asynchronous requests). The values that an answered
    /// request sets are given, from the next time on. After want of memory the stock says nothing any more.
    pub fn answer(
        &mut self,
        plan: &Plan,
        sim: SimNo,
        at: Tier,
        id: u64,
        name: &Text,
        args: &List<Json>,
        named: &Json,
    ) -> Result<Item, Mem>
        requires valid { IsValidPlan plan.now }
        requires asked { IsStepOpen plan.now sim.0 at self.old }
        requires early { pos 0 ≤ℤ at.time }
        requires late { at.time ≤ℤ latest_time }
        requires low { at.tier ≤ greatest_tier }
        requires range { list_all is_in_range args.now ≡ true }
        ensures marks { HasSameMarks self.old.buffers self.new.buffers }
        ensures item { (V : View) (T : OpenTurn) → IsStockOf plan.now V self.old
            → IfOk result (λ item. item
            ≡ response plan.now (supply plan.now V.acts) sim.0 at T.place
            (Ask id name.now args.now named.now)) }
        ensures stock { (J : List Entry) (T : OpenTurn) (q : Place)
            → MayComeNext plan.now J (Got sim (Ask id name.now args.now named.now))
            → IsRight plan.now (view plan.now J) sim.0 (Ask id name.now args.now named.now) T
            (Some q) → T.at ≡ at
            → IsStockOf plan.now (view plan.now J) self.old
            → IfOk result (λ item.
            IsStockOf plan.now (note_sent plan.now
            (note_right plan.now (view plan.now J) sim.0 (Ask id name.now args.now named.now) T
            (Some q)) sim.0 item) self.new) }
    {
        match judge(plan, &self.names, sim, name, args, named) {
            Ok(asked) => self.answer_judged(plan, at, id, &asked),
            Err(reason) => Ok(Item::Refuse { id, reason }),
        }
    }

    // The item that answers a request that was judged, whose values are given.
    fn answer_judged(&mut self, plan: &Plan, at: Tier, id: u64, asked: &Asked) -> Result<Item, Mem>
        requires references { RefersInside plan.now }
        requires names { AreNamesOf plan.now self.old.names }
        requires form { IsSome (asked_in asked.now) }
        requires range { is_asked_in_range asked.now ≡ true }
        requires known { (s : ℕ)
            × (option_map (knows plan.now s) (asked_in asked.now) ≡ Some true) }
        requires stands { (S : Supply) × StandFor plan.now self.old.buffers S }
        requires reached { wants_data asked.now ≡ true → IsUpTo (least_mark self.old.buffers) at }
        requires early { pos 0 ≤ℤ at.time }
        requires late { at.time ≤ℤ latest_time }
        requires low { at.tier ≤ greatest_tier }
        ensures item { (S : Supply) → StandFor plan.now self.old.buffers S
            → IfOk result (λ item. IsAnswerBy plan.now (value_at S at) asked.now id item) }
        ensures given { (s : ℕ) (S : Supply)
            → option_map (knows plan.now s) (asked_in asked.now) ≡ Some true
            → StandFor plan.now self.old.buffers S
            → IfOk result (λ item. HasGivenOf plan.now at asked.now S self.new.buffers) }
        ensures rest { HasSameRest self.old self.new }
    {
        let content = self.content_of(plan, at, asked)?;
        let sets = given_values(self.alloc, plan, &self.names, asked)?;
        self.give_all(at, sets)?;
        Ok(Item::Answer { id, content })
    }

    // The content of the answer.
    fn content_of(&self, plan: &Plan, at: Tier, asked: &Asked) -> Result<Datum, Mem>
        requires references { RefersInside plan.now }
        requires names { AreNamesOf plan.now self.now.names }
        requires form { IsSome (asked_in asked.now) }
        requires known { (s : ℕ)
            × (option_map (knows plan.now s) (asked_in asked.now) ≡ Some true) }
        requires stands { (S : Supply) × StandFor plan.now self.now.buffers S }
        requires reached { wants_data asked.now ≡ true → IsUpTo (least_mark self.now.buffers) at }
        ensures { (S : Supply) → StandFor plan.now self.now.buffers S
            → IfOk result (λ text.
            option_map (content_text plan.now (value_at S at)) (asked_in asked.now) ≡ Some text) }
    {
        if let Asked::Get(wants) = asked {
            return data_content(self.alloc, plan, &self.names, &self.buffers, at, wants);
        }
        match plain_content(self.alloc, plan, &self.names, asked)? {
            Some(content) => Ok(content),
            None => unreachable!(),
        }
    }

    // Gives the values that a step at `at` sets: each is delivered at the next time.
    fn give_all(&mut self, at: Tier, sets: List<SetValue>) -> Result<(), Mem>
        requires early { pos 0 ≤ℤ at.time }
        requires late { at.time ≤ℤ latest_time }
        requires low { at.tier ≤ greatest_tier }
        ensures given { (P : Plan) (s : ℕ) (S : Supply) → StandFor P self.old.buffers S
            → All (IsGivenBy P s) sets
            → OnOk result (HasGivenAll P (gifts_in at sets) S self.new.buffers) }
        ensures rest { HasSameRest self.old self.new }
    {
        let next = at.after(Via::Shift(1));
        for set in sets.into_vec() {
            self.buffers.give(next, set)?;
        }
        Ok(())
    }
}
