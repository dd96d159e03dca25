//! The simulators of a run.
ghost use Rattle.std.specs.Prelude.{◌≡◌, ◌<◌, ◌≤◌, ◌+◌, ◌^◌, ℕ, ℤ, List, length, IfOk, Some, None};
ghost use Rattle.mk_base.specs.declared.tier.Tier.{Tier};
ghost use Rattle.mk_plan.specs.declared.Plan.{Plan};
ghost use Rattle.mk_plan.specs.declared.Input.{Input};
ghost use Rattle.mk_plan.specs.declared.Item.TheVariants.{Step};
ghost use Rattle.mk_plan.specs.declared.Message.{Message};
ghost use Rattle.mk_plan.specs.declared.Place.TheVariants.{Fetching};
ghost use Rattle.mk_plan.specs.Plans.{IsValidPlan};
ghost use Rattle.mk_plan.specs.Acts.{next_time};
ghost use Rattle.mk_plan.specs.Deliveries.{supply};
ghost use Rattle.mk_plan.specs.Sequential.{response};
ghost use Rattle.mk_plan.specs.Journals.{View, OpenTurn, empty_view, place_at, heard, ended_turn, note_sent, note_right};
ghost use Rattle.mk_sched_open.specs.Turns.{IsRight, IsInRun, IsPlaceInRun, next_in};
ghost use Rattle.mk_sched_open.specs.Sims.{AreSimsOf};
ghost use Rattle.mk_sched_open.specs.inner.Changes.{new_sim, begun_sim, gone_on, open_id, ended_sim};
ghost use Rattle.mk_base.specs.Limits.{most_entries};

use mk_base::{List, Mem, SimNo, Tier};
use mk_plan::{Place, Plan};
use std::alloc::Global;
use std::marker::Model;

/// What is kept of a simulator: what is open at it; where that is a GetData, the next time that the reply to the Step
/// returned, in the unit of the scenario; the id of its next Step; and how many right messages came from it.
#[derive(Clone, Copy)]
pub struct Sim {
    pub place: Place,
    pub next: Option<i64>,
    pub next_id: u64,
    pub heard: u64,
}

/// What is open at each simulator of a run, the ids of its requests, and how many of its messages were right.
///
/// Contracts see the list of what is kept of each; what it means is that these are the simulators of a journal's view
/// (`AreSimsOf`): each call that changes them says for which entry it keeps that, in a journal of at most 20,000,000
/// entries.
#[derive(Drop)]
pub struct Sims {
    kept: List<Sim>,
}

impl Model for Sims {
    ghost use Rattle.std.specs.Prelude.{List};
    ghost use Rattle.mk_sched_open.specs.declared.sims.Sim.{Sim};

    ghost Value = { List Sim };

    ghost view = { λ a. a.kept };
}

impl Sims {
    /// The simulators of a run that has not begun. Fails for want of memory alone.
    pub fn new(alloc: Global, plan: &Plan) -> Result<Sims, Mem>
        requires { IsValidPlan plan.now }
        ensures { IfOk result (λ sims. AreSimsOf plan.now empty_view 0 sims) }
    {
        let mut kept = List::new(alloc);
        for sim in plan.sims.as_slice() {
            kept.push(new_sim(sim.first_id))?;
        }
        Ok(Sims { kept })
    }

    /// What is open at a simulator: nothing, a Step or a GetData.
    pub fn place(&self, sim: SimNo) -> Place
        requires { sim.0 < length self.now }
        ensures place { (P : Plan) → (V : View) → (n : ℕ) → AreSimsOf P V n self.now
            → result ≡ place_at (V.open_at sim.0) }
        ensures run { (P : Plan) → (V : View) → (n : ℕ) → n ≤ most_entries
            → AreSimsOf P V n self.now → IsPlaceInRun result }
    {
        self.kept.at(sim.0 as usize).place
    }

    /// How many right messages came from a simulator.
    pub fn heard(&self, sim: SimNo) -> u64
        requires { sim.0 < length self.now }
        ensures { (P : Plan) → (V : View) → (n : ℕ) → AreSimsOf P V n self.now
            → result ≡ length (heard V sim.0) }
    {
        self.kept.at(sim.0 as usize).heard
    }

    /// Where a GetData is open at a simulator, the next time that the reply to its Step returned; `None` where it
    /// returned none.
    pub fn next(&self, sim: SimNo) -> Option<i64>
        requires { sim.0 < length self.now }
        ensures { (P : Plan) → (V : View) → (n : ℕ) → (T : OpenTurn) → (x : Tier) → (id : ℕ)
            → (m : Message) → AreSimsOf P V n self.now → V.open_at sim.0 ≡ Some T
            → T.place ≡ Fetching x id → result ≡ next_time (ended_turn T m) }
    {
        self.kept.at(sim.0 as usize).next
    }

    /// A simulator was sent its Step at `at`: its turn opens.
    pub fn begin(&mut self, sim: SimNo, at: Tier)
        requires { sim.0 < length self.old }
        ensures count { length self.new ≡ length self.old }
        ensures sims { (P : Plan) → (V : View) → (n : ℕ) → (ins : List Input) → (advance : ℤ)
            → AreSimsOf P V n self.old → V.open_at sim.0 ≡ None → IsInRun at
            → AreSimsOf P (note_sent P V sim.0 (Step at ins advance)) (n + 1) self.new }
    {
        let begun = begun_sim(self.kept.at(sim.0 as usize), at);
        self.kept.set(sim.0 as usize, begun);
    }

    /// A right message came after which the simulator's turn goes on, at `place` from now on, and what is owed after it
    /// was sent; `next` is the next time that the message returned.
    pub fn go_on(&mut self, sim: SimNo, place: Place, next: Option<i64>)
        requires { sim.0 < length self.old }
        ensures count { length self.new ≡ length self.old }
        ensures sims { (P : Plan) → (V : View) → (n : ℕ) → (m : Message) → (T : OpenTurn)
            → n ≤ most_entries → AreSimsOf P V n self.old → IsRight P V sim.0 m T (Some place)
            → next ≡ next_in m
            → AreSimsOf P (note_sent P (note_right P V sim.0 m T (Some place)) sim.0
            (response P (supply P V.acts) sim.0 T.at T.place m)) (n + 2) self.new }
    {
        let further = gone_on(self.kept.at(sim.0 as usize), place, next);
        self.kept.set(sim.0 as usize, further);
    }

    /// A right message came that ends the simulator's turn.
    pub fn end(&mut self, sim: SimNo)
        requires { sim.0 < length self.old }
        ensures count { length self.new ≡ length self.old }
        ensures sims { (P : Plan) → (V : View) → (n : ℕ) → (m : Message) → (T : OpenTurn)
            → n ≤ most_entries → AreSimsOf P V n self.old → IsRight P V sim.0 m T None
            → AreSimsOf P (note_right P V sim.0 m T None) (n + 1) self.new }
    {
        let ended = ended_sim(self.kept.at(sim.0 as usize));
        self.kept.set(sim.0 as usize, ended);
    }
}

// A simulator before its first step.
fn new_sim(first_id: u64) -> Sim
    ensures { result ≡ new_sim first_id }
{
    Sim {
        place: Place::Idle,
        next: None,
        next_id: first_id,
        heard: 0,
    }
}

// The simulator when its step begins.
fn begun_sim(sim: &Sim, at: Tier) -> Sim
    ensures { result ≡ begun_sim sim.now at }
{
    Sim {
        place: Place::Stepping {
            at,
            id: sim.next_id,
            asks: 0,
        },
        next: sim.next,
        next_id: sim.next_id,
        heard: sim.heard,
    }
}

// The simulator after a message after which its turn goes on.
fn gone_on(sim: &Sim, place: Place, next: Option<i64>) -> Sim
    ensures { sim.now.heard < 2 ^ 32 → result ≡ gone_on sim.now place next }
{
    Sim {
        place,
        next,
        next_id: sim.next_id,
        heard: sim.heard.saturating_add(1),
    }
}

// The simulator after its turn.
fn ended_sim(sim: &Sim) -> Sim
    ensures { sim.now.heard < 2 ^ 32 → open_id sim.now.place sim.now.next_id < 2 ^ 32
        → result ≡ ended_sim sim.now }
{
    Sim {
        place: Place::Idle,
        next: sim.next,
        next_id: open_id(sim).saturating_add(1),
        heard: sim.heard.saturating_add(1),
    }
}

// The id of what is open, or of the next Step where nothing is.
fn open_id(sim: &Sim) -> u64
    ensures { result ≡ open_id sim.now.place sim.now.next_id }
{
    match sim.place {
        Place::Idle => sim.next_id,
        Place::Stepping { at: _, id, asks: _ } => id,
        Place::Fetching { at: _, id } => id,
    }
}
