//! The agenda of a run.
ghost use Rattle.std.specs.Prelude.{◌≡◌, ℕ, ℤ, ◌<◌, ◌≤ℤ◌, pos, true, false, length, List, IfOk, OnOk, None, is_some, MatchOption};
ghost use Rattle.std.specs.Option.{ForSome};
ghost use Rattle.mk_base.specs.declared.tier.Tier.{Tier};
ghost use Rattle.mk_plan.specs.declared.Plan.{Plan};
ghost use Rattle.mk_plan.specs.declared.Entry.{Entry};
ghost use Rattle.mk_plan.specs.declared.Input.{Input};
ghost use Rattle.mk_plan.specs.declared.Item.TheVariants.{Step};
ghost use Rattle.mk_plan.specs.declared.Message.{Message};
ghost use Rattle.mk_plan.specs.Plans.{IsValidPlan, sim_count};
ghost use Rattle.mk_plan.specs.Journals.{View, OpenTurn, empty_view, view, note_sent};
ghost use Rattle.mk_plan.specs.Walks.{Reach, nobody, IsEarliest};
ghost use Rattle.mk_plan.specs.Ready.{IsReady, last_step, start};
ghost use Rattle.mk_plan.specs.Advance.{IsAdvance};
ghost use Rattle.mk_plan.specs.Orderly.{IsOrderlySoFar, IsFirstReady};
ghost use Rattle.mk_tiers.specs.Noted.{HasNoted};
ghost use Rattle.mk_tiers.specs.Seen.{AreOfPlan, IsEarliestIn};
ghost use Rattle.mk_sched_agenda.specs.Outlets.{outlets_in};
ghost use Rattle.mk_sched_agenda.specs.Mirrors.{AgendaState, Mirrors};
ghost use Rattle.mk_sched_agenda.specs.Endings.{CanBeMade, IsLast, EndOf};

use crate::advance::{advance_by, sooner};
use crate::beginning::first_dues;
use crate::dues::Dues;
use crate::limits::{Limits, limits_of};
use crate::outlets::{Beyond, Outlet, outlets_of};
use crate::triggers::{bring_all, first_beyond};
use mk_base::{List, Mem, SimNo, Tier};
use mk_plan::Plan;
use mk_tiers::Bits;
use std::alloc::Global;
use std::marker::Model;

/// A simulator that may be asked for a step, and the tiered time of that step.
#[derive(Clone, Copy, Debug, PartialEq, Eq)]
pub struct Ready {
    pub sim: SimNo,
    pub at: Tier,
}

/// When each simulator of a plan is due, whose turn is open, and who may be asked next.
///
/// Contracts see its parts; what these mean is that the agenda mirrors the view of a journal (`Mirrors`): each call
/// that changes it says for which entry it keeps that.
#[derive(Drop)]
pub struct Agenda {
    limits: Limits,
    outlets: Vec<List<Outlet>>,
    dues: Dues,
}

impl Model for Agenda {
    ghost use Rattle.mk_sched_agenda.specs.Mirrors.{AgendaState};
    ghost use Rattle.mk_sched_agenda.specs.inner.Dues.{IsSound, IsTidy};
    ghost use Rattle.std.specs.Prelude.{◌≡◌, length};

    ghost Value = { AgendaState };

    ghost view = { λ a. record {
      limits = a.limits;
      outlets = a.outlets.items;
      queues = a.dues.queues.items;
      lasts = a.dues.lasts.items;
      bounds = a.dues.bounds;
    } };

    ghost invariant = { λ a. IsSound a.limits a.outlets.items a.dues.queues.items
        × IsTidy a.dues.queues.items a.dues.opened a.dues.bounds
        × (length a.dues.lasts.items ≡ length a.dues.queues.items) };
}

impl Agenda {
    /// The agenda of a run that has not begun. Fails for want of memory alone.
    pub fn new(alloc: Global, plan: &Plan) -> Result<Agenda, Mem>
        requires { IsValidPlan plan.now }
        ensures { IfOk result (λ agenda. Mirrors plan.now empty_view agenda) }
    {
        let limits = limits_of(plan);
        let outlets = outlets_of(alloc, plan)?;
        let dues = first_dues(alloc, plan, &limits)?;
        Ok(Agenda {
            limits,
            outlets,
            dues,
        })
    }

    /// The triggering connections of a simulator, in plan order.
    pub fn outlets(&self, sim: SimNo) -> &[Outlet]
        requires { sim.0 < length self.now.queues }
        ensures { result.now ≡ outlets_in self.now.outlets sim.0 }
    {
        self.outlets[sim.0 as usize].as_slice()
    }

    /// The least-numbered simulator that may be asked for a step, and when; `None` exactly where none may.
    pub fn first_ready(&self) -> Option<Ready>
        ensures { (P : Plan) → (V : View) → IsValidPlan P → Mirrors P V self.now
            → MatchOption result ((i : ℕ) → (x : Tier) → IsReady P V i x
            → ⊥) (λ r. IsFirstReady IsReady IsAdvance P V r.sim.0 r.at) }
    {
        let sim = self.dues.bounds.first_ready()?;
        let at = self.dues.first_step(sim)?;
        Some(Ready { sim, at })
    }

    /// The last step that a simulator was asked for; `None` exactly where it was asked for none.
    pub fn last_step(&self, sim: SimNo) -> Option<Tier>
        ensures { (P : Plan) → (V : View) → Mirrors P V self.now → sim.0 < sim_count P
            → result ≡ last_step V sim.0 }
    {
        self.dues.last_step(sim)
    }

    /// Whether the turn of some simulator is open.
    pub fn is_any_open(&self) -> bool
        ensures some { result ≡ true → (P : Plan) → (V : View) → Mirrors P V self.now → (i : ℕ)
            × (i < sim_count P) × (is_some (V.open_at i) ≡ true) }
        ensures none { result ≡ false → (P : Plan) → (V : View) → Mirrors P V self.now → (i : ℕ)
            → i < sim_count P → V.open_at i ≡ None }
    {
        self.dues.is_any_open()
    }

    /// The `max_advance` of the step at `at` for which a simulator may be asked, in the unit of the scenario: the time
    /// up to which others won't trigger it (mosaik 3, low-level API). Takes no memory.
    pub fn max_advance(&mut self, sim: SimNo, at: Tier) -> i64
        requires { sim.0 < length self.old.queues }
        ensures same { self.new ≡ self.old }
        ensures advance { (P : Plan) → (J : List Entry) → IsValidPlan P
            → IsOrderlySoFar IsReady IsAdvance P J → (view P J).fault ≡ None
            → IsReady P (view P J) sim.0 at
            → Mirrors P (view P J) self.old → IsAdvance P (view P J) sim.0 at result }
    {
        let trigger = self.dues.queues[sim.0 as usize].least_trigger_after(at);
        let outer = self.dues.bounds.outer(sim);
        advance_by(&self.limits, at, sooner(trigger, outer))
    }

    /// The least tiered time at which a simulator may still step, by the starts of all and what these may trigger;
    /// `None` exactly where there is no such time.
    pub fn earliest(&self, sim: SimNo) -> Option<Tier>
        requires { sim.0 < length self.now.queues }
        ensures earliest { (P : Plan) → (V : View) → IsValidPlan P → Mirrors P V self.now
            → MatchOption result ((y : Tier) → Reach P (start P V) nobody sim.0 y
            → ⊥) (λ e. IsEarliest P (start P V) sim.0 e) }
        ensures bounds { (P : Plan) → IsValidPlan P → AreOfPlan P self.now.bounds
            → IsEarliestIn P self.now.bounds sim.0 result }
    {
        self.dues.bounds.earliest(sim)
    }

    /// A simulator that may be asked for a step was sent it: its turn opens. Whoever may then step from another time on
    /// than before is noted. Takes no memory.
    pub fn step(&mut self, sim: SimNo, noted: &mut Bits)
        requires { sim.0 < length self.old.queues }
        ensures count { length self.new.queues ≡ length self.old.queues }
        ensures outlets { self.new.outlets ≡ self.old.outlets }
        ensures mirrors { (P : Plan) → (V : View) → (x : Tier) → (ins : List Input) → (advance : ℤ)
            → IsReady P V sim.0 x → Mirrors P V self.old
            → Mirrors P (note_sent P V sim.0 (Step x ins advance)) self.new }
        ensures noted { HasNoted self.old.bounds self.new.bounds noted.old noted.new }
    {
        self.dues.begin_turn(sim, noted);
    }

    /// The last message of a simulator's turn came: its outputs are made at `made` and go to those of its triggering
    /// connections that `given` marks, and it asked for the next time `next`. Answers the first trigger beyond the loop
    /// limit, if there is one, and changes nothing then; else `None`. Whoever may then step from another time on than
    /// before is noted. After want of memory the agenda says nothing any more.
    pub fn end_turn(
        &mut self,
        sim: SimNo,
        made: Tier,
        next: Option<i64>,
        given: &[bool],
        noted: &mut Bits,
    ) -> Result<Option<Beyond>, Mem>
        requires sim { sim.0 < length self.old.queues }
        requires made { CanBeMade made }
        requires next { ForSome next (λ n. pos 0 ≤ℤ n) }
        requires given { length given.now ≡ length (outlets_in self.old.outlets sim.0) }
        ensures count { length self.new.queues ≡ length self.old.queues }
        ensures outlets { self.new.outlets ≡ self.old.outlets }
        ensures ends { (P : Plan) → (J : List Entry) → (T : OpenTurn) → (m : Message)
            → IsLast P J sim T m made next given.now → Mirrors P (view P J) self.old
            → IfOk result (λ beyond. EndOf P J sim T m self.old beyond self.new) }
        ensures noted { OnOk result
            (HasNoted self.old.bounds self.new.bounds noted.old noted.new) }
    {
        let outlets = self.outlets[sim.0 as usize].as_slice();
        if let Some(beyond) = first_beyond(&self.limits, outlets, given, made) {
            return Ok(Some(beyond));
        }
        // What is triggered comes first: whoever may step then by this turn anyway keeps its bound as the
        // turn closes.
        bring_all(&mut self.dues, &self.limits, outlets, given, made, noted)?;
        self.dues.close_turn(&self.limits, sim, next, noted)?;
        Ok(None)
    }
}
