//! What is kept of the simulators, and how it changes: a turn opens, a turn closes, something triggers a step.
ghost use Rattle.std.specs.Prelude.{◌≡◌, ◌<◌, ◌≤◌, ◌≤ℤ◌, pos, true, false, not, ◌&&◌, if◌then◌else◌, length, OnOk, OnErr, Some, slice_set};
ghost use Rattle.std.specs.Option.{ForSome};
ghost use Rattle.std.specs.List.{list_any};
ghost use Rattle.mk_plan.specs.declared.Plan.{Plan};
ghost use Rattle.mk_nextstep.specs.Queues.{added, later, least};
ghost use Rattle.mk_tiers.specs.Noted.{HasNoted};
ghost use Rattle.mk_tiers.specs.Seen.{AreOfPlan};
ghost use Rattle.mk_tiers.specs.Standing.{IsOwn};
ghost use Rattle.mk_sched_agenda.specs.Dues.{queue_in, last_in};
ghost use Rattle.mk_sched_agenda.specs.inner.Dues.{IsTidy, is_open, with_own, with_next, with_start, is_first, with_trigger};
ghost use Rattle.mk_base.specs.Limits.{latest_end, most_loops};

use crate::limits::{Limits, is_inside};
use crate::turns::OpenTurns;
use mk_base::{Mem, SimNo, Tier};
use mk_nextstep::Queue;
use mk_tiers::{Bits, Bounds};

// The steps to come of each simulator, its last step, whose turn is open, and the bounds of their starts.
#[derive(Drop)]
pub struct Dues {
    pub queues: Vec<Queue>,
    pub lasts: Vec<Option<Tier>>,
    pub opened: OpenTurns,
    pub bounds: Bounds,
}

impl Dues {
    // The first of the steps to come of a simulator.
    pub fn first_step(&self, sim: SimNo) -> Option<Tier>
        ensures { result ≡ least (queue_in self.now.queues.items sim.0) }
    {
        match self.queues.get(sim.0 as usize) {
            Some(queue) => queue.least(),
            None => None,
        }
    }

    // The last step of a simulator.
    pub fn last_step(&self, sim: SimNo) -> Option<Tier>
        ensures { result ≡ last_in self.now.lasts.items sim.0 }
    {
        match self.lasts.get(sim.0 as usize) {
            Some(last) => *last,
            None => None,
        }
    }

    // Whether some turn is open.
    pub fn is_any_open(&self) -> bool
        ensures { result ≡ list_any (λ b. b) self.now.opened }
    {
        self.opened.is_any_open()
    }

    // The simulator is asked for the first of its steps: its turn opens. Whoever may then step from another time on
    // than before is noted.
    pub fn begin_turn(&mut self, sim: SimNo, noted: &mut Bits)
        requires sim { sim.0 < length self.old.queues.items }
        requires lasts { sim.0 < length self.old.lasts.items }
        requires tidy { IsTidy self.old.queues.items self.old.opened self.old.bounds }
        ensures tidy { IsTidy self.new.queues.items self.new.opened self.new.bounds }
        ensures queues { self.new.queues.items
            ≡ slice_set self.old.queues.items sim.0 (later (queue_in self.old.queues.items sim.0)) }
        ensures lasts { self.new.lasts.items
            ≡ slice_set self.old.lasts.items sim.0 (least (queue_in self.old.queues.items sim.0)) }
        ensures bounds { self.new.bounds
            ≡ with_start self.old.bounds sim.0 (least (queue_in self.old.queues.items sim.0)) true }
        ensures plan { (P : Plan) → AreOfPlan P self.old.bounds → AreOfPlan P self.new.bounds }
        ensures noted { HasNoted self.old.bounds self.new.bounds noted.old noted.new }
    {
        let at = self.queues[sim.0 as usize].take();
        self.lasts[sim.0 as usize] = at;
        self.opened.open(sim.0 as usize);
        self.bounds.set_own_noting(sim, at, true, noted);
    }

    // Its turn closes, by which it asks for this next time.
    pub fn close_turn(
        &mut self,
        limits: &Limits,
        sim: SimNo,
        next: Option<i64>,
        noted: &mut Bits,
    ) -> Result<(), Mem>
        requires sim { sim.0 < length self.old.queues.items }
        requires tidy { IsTidy self.old.queues.items self.old.opened self.old.bounds }
        requires until { limits.now.until ≤ℤ latest_end }
        requires loops { limits.now.loops ≤ most_loops }
        requires next { ForSome next (λ n. pos 0 ≤ℤ n) }
        ensures tidy { IsTidy self.new.queues.items self.new.opened self.new.bounds }
        ensures count { length self.new.queues.items ≡ length self.old.queues.items }
        ensures queues { OnOk result (self.new.queues.items
            ≡ slice_set self.old.queues.items sim.0
            (with_next limits.now (queue_in self.old.queues.items sim.0) next)) }
        ensures lasts { self.new.lasts.items ≡ self.old.lasts.items }
        ensures bounds { OnOk result (self.new.bounds
            ≡ with_start self.old.bounds sim.0
            (least (queue_in self.new.queues.items sim.0)) false) }
        ensures plan { (P : Plan) → AreOfPlan P self.old.bounds → AreOfPlan P self.new.bounds }
        ensures noted { OnOk result
            (HasNoted self.old.bounds self.new.bounds noted.old noted.new) }
    {
        let queue = &mut self.queues[sim.0 as usize];
        add_next(queue, limits, next)?;
        let first = queue.least();
        self.opened.close(sim.0 as usize);
        self.bounds.set_own_noting(sim, first, false, noted);
        Ok(())
    }

    // A delivery triggers a step.
    pub fn trigger(&mut self, to: SimNo, at: Tier, noted: &mut Bits) -> Result<(), Mem>
        requires sim { to.0 < length self.old.queues.items }
        requires tidy { IsTidy self.old.queues.items self.old.opened self.old.bounds }
        requires own { IsOwn (Some at) }
        ensures tidy { IsTidy self.new.queues.items self.new.opened self.new.bounds }
        ensures count { length self.new.queues.items ≡ length self.old.queues.items }
        ensures queues { OnOk result (self.new.queues.items
            ≡ slice_set self.old.queues.items to.0
            (added true at (queue_in self.old.queues.items to.0))) }
        ensures lasts { self.new.lasts.items ≡ self.old.lasts.items }
        ensures bounds { OnOk result (self.new.bounds
            ≡ with_trigger self.old.bounds self.old.opened
            (queue_in self.old.queues.items to.0) to.0 at) }
        ensures plan { (P : Plan) → AreOfPlan P self.old.bounds → AreOfPlan P self.new.bounds }
        ensures opened { self.new.opened ≡ self.old.opened }
        ensures noted { OnOk result
            (HasNoted self.old.bounds self.new.bounds noted.old noted.new) }
    {
        let queue = &mut self.queues[to.0 as usize];
        let is_first = is_first(queue, at);
        queue.add_trigger(at)?;
        self.start_at(to, at, is_first, noted);
        Ok(())
    }

    // A step that is the first one is the start, where no turn is open.
    fn start_at(&mut self, to: SimNo, at: Tier, is_first: bool, noted: &mut Bits)
        requires opened { to.0 < length self.old.opened }
        requires sim { to.0 < length self.old.bounds.owns }
        requires own { IsOwn (Some at) }
        ensures queues { self.new.queues.items ≡ self.old.queues.items }
        ensures opened { self.new.opened ≡ self.old.opened }
        ensures lasts { self.new.lasts.items ≡ self.old.lasts.items }
        ensures bounds { self.new.bounds
            ≡ (if is_first && not (is_open self.old.opened to.0)
            then with_start self.old.bounds to.0 (Some at) false else self.old.bounds) }
        ensures plan { (P : Plan) → AreOfPlan P self.old.bounds → AreOfPlan P self.new.bounds }
        ensures noted { HasNoted self.old.bounds self.new.bounds noted.old noted.new }
    {
        if is_first && !self.opened.is_open(to.0 as usize) {
            self.bounds.set_own_noting(to, Some(at), false, noted);
        }
    }
}

// Adds a step that a simulator asks for itself, if it is within the limits.
pub fn add_own(queue: &mut Queue, limits: &Limits, at: Tier) -> Result<(), Mem>
    ensures ok { OnOk result (queue.new ≡ with_own limits.now queue.old at) }
    ensures err { OnErr result (queue.new ≡ queue.old) }
{
    if is_inside(limits, at) {
        queue.add_self(at)?;
    }
    Ok(())
}

// Adds the next time that a turn returned, if it did.
fn add_next(queue: &mut Queue, limits: &Limits, next: Option<i64>) -> Result<(), Mem>
    ensures ok { OnOk result (queue.new ≡ with_next limits.now queue.old next) }
    ensures err { OnErr result (queue.new ≡ queue.old) }
{
    match next {
        Some(time) => add_own(queue, limits, Tier { time, tier: 0 }),
        None => Ok(()),
    }
}

// Whether a step then would be the first.
fn is_first(queue: &Queue, at: Tier) -> bool
    ensures { result ≡ is_first at queue.now }
{
    match queue.least() {
        Some(first) => !first.is_up_to(at),
        None => true,
    }
}
