//! The core: a run of a plan, message by message.
ghost use Rattle.std.specs.Prelude.{◌≡◌, ◌<◌, ◌≤◌, [], true, IfOk, IfErr, IsSome, None};
ghost use Rattle.mk_base.specs.declared.tier.Tier.{Tier};
ghost use Rattle.mk_plan.specs.Plans.{IsValidPlan, sim_count};
ghost use Rattle.mk_plan.specs.Deliveries.{supply};
ghost use Rattle.mk_plan.specs.Journals.{view};
ghost use Rattle.mk_buffers.specs.Bounds.{most_kept};
ghost use Rattle.mk_sched.specs.Cores.{CoreState, Stands};
ghost use Rattle.mk_sched.specs.Answers.{NextOf, ArriveOf, IsOutOfMemory, SomeReady, open_id, id_at};
ghost use Rattle.mk_sched.specs.Holding.{IsFloor, IsHeld};
ghost use Rattle.mk_sched.specs.inner.Derived.{end_after_next, end_after_arrive};
ghost use Rattle.mk_plan.specs.Messages.{is_message_in_range};

use crate::asking::advance;
use crate::derived::{Derived, new_derived};
use crate::faults::{Ended, Next, Taken};
use crate::marks::give_up;
use crate::taking::take;
use mk_base::{List, Mem, SimNo};
use mk_plan::{Journal, Message, Place, Plan};
use std::alloc::Global;
use std::marker::Model;

/// A run of a plan: the journal so far, and what happens next.
///
/// Contracts see it as its plan, the entries of its journal, and what it answers from now on, if it has met a fault or
/// want of memory. Its journal is orderly and agrees with sequential execution over all messages that may still come,
/// which `journal` says.
#[derive(Drop)]
pub struct Core {
    alloc: Global,
    plan: Plan,
    journal: Journal,
    derived: Derived,
    ended: Option<Ended>,
}

impl Model for Core {
    ghost use Rattle.mk_sched.specs.Cores.{CoreState};
    ghost use Rattle.mk_sched.specs.inner.Holding.{HasToldRest, HasGivenUp};
    ghost use Rattle.mk_sched.specs.inner.Derived.{IsDerived};
    ghost use Rattle.mk_base.specs.contracts.json.Json as json;
    ghost use Rattle.std.specs.Coded.{codes};

    ghost Value = { CoreState };

    ghost coded = { Prim.hlevel (codes, json.the_row.coded) };

    ghost view = { λ a. record { plan = a.plan; entries = a.journal.entries; ended = a.ended } };

    ghost invariant = { λ a. IsDerived a.plan a.journal.entries a.derived a.ended
        × HasGivenUp a.plan a.journal.entries a.derived a.ended
        × HasToldRest a.plan a.derived a.ended };
}

impl Core {
    /// The core of a run that has not begun. Fails for want of memory alone.
    pub fn new(alloc: Global, plan: Plan) -> Result<Core, Mem>
        requires { IsValidPlan plan }
        ensures { IfOk result (λ core. core ≡ record { plan = plan; entries = []; ended = None }) }
    {
        let mut derived = new_derived(alloc, &plan)?;
        give_up(&plan, &mut derived, None);
        let journal = Journal {
            entries: List::new(alloc),
        };
        Ok(Core {
            alloc,
            plan,
            journal,
            derived,
            ended: None,
        })
    }

    /// What is to be done next. Where a simulator is ready, and the journal has room, the first such one is asked: the
    /// journal then ends with its Step; where it has no room, that is the fault. After a fault it is that fault, and
    /// nothing changes; at want of memory the journal is as before, and after it it is want of memory.
    pub fn next(&mut self) -> Result<Next, Mem>
        ensures ok { IfOk result (λ next. NextOf self.old next self.new) }
        ensures err { IfErr result (λ _. IsOutOfMemory self.old self.new) }
        ensures stands { Stands self.new.plan self.new.entries }
    {
        match self.ended {
            Some(Ended::Faulty(fault)) => return Ok(Next::Fault(fault)),
            Some(Ended::OutOfMemory) => return Err(Mem),
            None => {}
        }
        let answer = advance(&self.plan, &mut self.derived, &mut self.journal);
        self.ended = end_after_next(&answer);
        answer
    }

    /// Takes a copy of a message of a simulator, as `take` takes the message itself.
    pub fn arrive(&mut self, sim: SimNo, message: &Message) -> Result<Taken, Mem>
        requires there { sim.0 < sim_count self.old.plan }
        requires form { is_message_in_range message.now ≡ true }
        ensures ok { IfOk result (λ taken. ArriveOf self.old sim message.now taken self.new) }
        ensures err { IfErr result (λ _. IsOutOfMemory self.old self.new) }
        ensures stands { Stands self.new.plan self.new.entries }
    {
        match self.ended {
            Some(Ended::Faulty(fault)) => return Ok(Taken::Fault(fault)),
            Some(Ended::OutOfMemory) => return Err(Mem),
            None => {}
        }
        match message.copy(self.alloc) {
            Ok(own) => self.take(sim, own),
            Err(Mem) => {
                self.ended = Some(Ended::OutOfMemory);
                Err(Mem)
            }
        }
    }

    /// Takes a message of a simulator: the journal gets it, and what is owed after it, which is then to be sent to that
    /// simulator. Where there is no room for the message, or for what is owed after it, the journal doesn't get that,
    /// which is the fault. After a fault it is that fault, and nothing changes; at want of memory the journal is as
    /// before, and after it it is want of memory.
    pub fn take(&mut self, sim: SimNo, message: Message) -> Result<Taken, Mem>
        requires there { sim.0 < sim_count self.old.plan }
        requires form { is_message_in_range message ≡ true }
        ensures ok { IfOk result (λ taken. ArriveOf self.old sim message taken self.new) }
        ensures err { IfErr result (λ _. IsOutOfMemory self.old self.new) }
        ensures stands { Stands self.new.plan self.new.entries }
    {
        match self.ended {
            Some(Ended::Faulty(fault)) => {
                drop(message);
                return Ok(Taken::Fault(fault));
            }
            Some(Ended::OutOfMemory) => {
                drop(message);
                return Err(Mem);
            }
            None => {}
        }
        let answer = take(
            self.alloc,
            &self.plan,
            &mut self.derived,
            &mut self.journal,
            sim,
            message,
        );
        self.ended = end_after_arrive(&answer);
        give_up(&self.plan, &mut self.derived, self.ended);
        answer
    }

    /// The id of the request that is open at the simulator: while the core has not ended, `None` exactly
    /// where nothing is open; after that, always `None`.
    pub fn id_of(&self, sim: SimNo) -> Option<u64>
        requires there { sim.0 < sim_count self.now.plan }
        ensures going { self.now.ended ≡ None → result ≡ open_id self.now sim.0 }
        ensures after { IsSome self.now.ended → result ≡ None }
    {
        if self.ended.is_some() {
            return None;
        }
        id_at(&self.derived.sims.place(sim))
    }

    /// How many outputs are held, since questions can still reach them. Where the core has not ended and nobody is
    /// ready, so after each `Wait` and each `Done`, they are at most as many as there are connections, distinct source
    /// attributes, and late outputs of the journal: outputs whose making, or whose delivery over some connection before
    /// the run's end, is later than `m`, which is any time before which there is neither the run's end, nor an
    /// outstanding step, nor a step that may still come.
    ///
    /// They are then also held so (`IsHeld`): by buffers that stand for the outputs of the acts, in which each
    /// simulator's mark is the earliest time at which it may still step, or is at or after the run's end where that
    /// time isn't before it or there is none; so they are few at the least of these marks.
    pub fn kept(&self) -> usize
        ensures held { self.now.ended ≡ None → (SomeReady self.now.plan self.now.entries → ⊥)
            → IsHeld self.now.plan self.now.entries result }
        ensures few { self.now.ended ≡ None → (SomeReady self.now.plan self.now.entries → ⊥)
            → (m : Tier) → IsFloor self.now.plan (view self.now.plan self.now.entries) m
            → result ≤ most_kept self.now.plan
            (supply self.now.plan (view self.now.plan self.now.entries).acts) m }
    {
        self.derived.stock.kept()
    }

    /// The plan of the run.
    pub fn plan(&self) -> &Plan
        ensures { result.now ≡ self.now.plan }
    {
        &self.plan
    }

    /// The journal: orderly, in agreement with sequential execution, and no longer than the plan allows.
    pub fn journal(&self) -> &Journal
        ensures same { result.now.entries ≡ self.now.entries }
        ensures stands { Stands self.now.plan self.now.entries }
    {
        &self.journal
    }

    /// The plan and the journal, which is as `journal` says; nothing else is kept.
    pub fn into_parts(self) -> (Plan, Journal)
        ensures plan { result.0 ≡ self.plan }
        ensures journal { result.1.entries ≡ self.entries }
        ensures stands { Stands self.plan self.entries }
    {
        let Core {
            alloc: _,
            plan,
            journal,
            derived,
            ended: _,
        } = self;
        drop(derived);
        (plan, journal)
    }
}

// What the core answers after this answer, if it has ended.
fn end_after_next(answer: &Result<Next, Mem>) -> Option<Ended>
    ensures { result ≡ end_after_next answer.now }
{
    match answer {
        Ok(Next::Fault(fault)) => Some(Ended::Faulty(*fault)),
        Ok(_) => None,
        Err(_) => Some(Ended::OutOfMemory),
    }
}

// What the core answers after this answer, if it has ended.
fn end_after_arrive(answer: &Result<Taken, Mem>) -> Option<Ended>
    ensures { result ≡ end_after_arrive answer.now }
{
    match answer {
        Ok(Taken::Fault(fault)) => Some(Ended::Faulty(*fault)),
        Ok(_) => None,
        Err(_) => Some(Ended::OutOfMemory),
    }
}

// The id of what is open.
fn id_at(place: &Place) -> Option<u64>
    ensures { result ≡ id_at place.now }
{
    match place {
        Place::Idle => None,
        Place::Stepping { at: _, id, asks: _ } => Some(*id),
        Place::Fetching { at: _, id } => Some(*id),
    }
}
