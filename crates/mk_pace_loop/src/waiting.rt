//! What waits of a paced run, and the moments of what was sent.
ghost use Rattle.std.specs.Prelude.{◌≡◌, ◌<◌, ◌≤◌, ◌+◌, ℕ, List, [], ◌∷◌, ◌++◌, None, Some, IfOk, IfSome, MatchOption, OnErr, OnOk, is_some, length, pos, replicate, slice_get, ◌≤ℤ◌};
ghost use Rattle.mk_pace_held.specs.declared.held.First.{First};
ghost use Rattle.mk_pace_held.specs.declared.held.Held.{Held};
ghost use Rattle.mk_pace_held.specs.Firsts.{IsFirst, first_at};
ghost use Rattle.mk_pace_laws.specs.declared.end.Moment.{Moment};
ghost use Rattle.mk_pace_laws.specs.Moments.{moment_at};
ghost use Rattle.mk_pace_loop.specs.inner.Waiting.{DueAs, HasTime, IsHeldAnew, IsOnTempo, IsTooLate};
ghost use Rattle.mk_base.specs.Limits.{latest_end, most_milliseconds};
ghost use Rattle.mk_outside.specs.Fleets.{last_moment};

use mk_base::{List, Mem, SimNo};
use mk_pace_held::{Due, First, Held, Holds};
use mk_pace_laws::{Moment, PaceEnd};
use mk_plan::Item;
use std::alloc::Global;
use std::marker::Model;

/// For each simulator what waits of its items, the moments of the Steps that were sent, the tempo,
/// which is what the clock told when the handshake was over and how many milliseconds a unit of time
/// has, and how many milliseconds late a Step may be, if there is a bound.
#[derive(Drop)]
pub struct Waiting {
    holds: Holds,
    moments: List<Moment>,
    origin: u64,
    factor: u64,
    strict: Option<u64>,
}

impl Model for Waiting {
    ghost use Rattle.std.specs.Prelude.{◌≤◌};
    ghost use Rattle.mk_base.specs.Limits.{most_milliseconds};
    ghost use Rattle.mk_outside.specs.Fleets.{last_moment};
    ghost use Rattle.mk_pace_loop.specs.inner.Waiting.{WaitingSeen};

    ghost Value = { WaitingSeen };

    ghost view = { λ a. record {
      holds = a.holds;
      moments = a.moments;
      tempo = record { origin = a.origin; factor = a.factor };
      strict = a.strict;
    } };

    ghost invariant = { λ a. (a.origin ≤ last_moment) × (a.factor ≤ most_milliseconds) };
}

impl Waiting {
    /// Nothing waits of any of so many simulators, and nothing was sent.
    pub fn new(
        alloc: Global,
        sims: u32,
        origin: u64,
        factor: u64,
        strict: Option<u64>,
    ) -> Result<Waiting, Mem>
        requires first { origin ≤ last_moment }
        requires most { factor ≤ most_milliseconds }
        ensures { IfOk result (λ waiting. waiting ≡ record {
          holds = replicate sims [];
          moments = [];
          tempo = record { origin = origin; factor = factor };
          strict = strict;
        }) }
    {
        Ok(Waiting {
            holds: Holds::new(alloc, sims)?,
            moments: List::new(alloc),
            origin,
            factor,
            strict,
        })
    }

    /// The moments of the Steps that were sent; takes no memory.
    pub fn into_moments(self) -> List<Moment>
        ensures { result ≡ self.moments }
    {
        self.moments
    }

    // The moment of a Step at this time.
    fn moment_at(&self, time: i64) -> u64
        requires { (pos 0 ≤ℤ time) × (time ≤ℤ latest_end) }
        ensures { result ≡ moment_at self.now.tempo time }
    {
        self.origin + time as u64 * self.factor
    }

    /// When an item is due; `None` where it is no Step.
    pub fn due_of(&self, item: &Item) -> Option<Due>
        requires { HasTime item.now }
        ensures { DueAs self.now.tempo item.now result }
    {
        match item {
            Item::Step { at, .. } => Some(Due {
                at: *at,
                moment: self.moment_at(at.time),
            }),
            _ => None,
        }
    }

    /// Whether something waits of a simulator.
    pub fn is_held(&self, sim: SimNo) -> bool
        requires { sim.0 < length self.now.holds }
        ensures { (q : List Held) × (slice_get self.now.holds sim.0 ≡ Some q)
            × (result ≡ is_some (slice_get q 0)) }
    {
        self.holds.is_held(sim)
    }

    /// Lets an item wait behind all others of its simulator. At want of memory nothing changes.
    pub fn hold(&mut self, sim: SimNo, held: Held) -> Result<(), Mem>
        requires { sim.0 < length self.old.holds }
        ensures ok { OnOk result ((q : List Held)
            × IsHeldAnew sim.0 q (q ++ held ∷ []) self.old self.new) }
        ensures err { OnErr result (self.new ≡ self.old) }
    {
        self.holds.hold(sim, held)
    }

    /// The first item that waits of a simulator; `None` exactly where nothing does.
    pub fn front(&self, sim: SimNo) -> Option<Held>
        requires { sim.0 < length self.now.holds }
        ensures { (q : List Held) × (slice_get self.now.holds sim.0 ≡ Some q)
            × (result ≡ slice_get q 0) }
    {
        self.holds.front(sim)
    }

    /// The Step that is to be sent next, as by `Holds::first`.
    pub fn first(&self) -> Option<First>
        ensures some { IfSome result (λ f. IsFirst f self.now.holds) }
        ensures none { result ≡ None → (i : ℕ) (q : List Held) → slice_get self.now.holds i ≡ Some q
            → first_at (record { 0 = i }) q ≡ None }
    {
        self.holds.first()
    }

    /// Takes the first item that waits of a simulator; `None` exactly where nothing does.
    pub fn take(&mut self, sim: SimNo) -> Option<Held>
        requires { sim.0 < length self.old.holds }
        ensures { MatchOption result ((slice_get self.old.holds sim.0 ≡ Some [])
            × (self.new ≡ self.old)) (λ h. (q : List Held)
            × IsHeldAnew sim.0 (h ∷ q) q self.old self.new) }
    {
        self.holds.take(sim)
    }

    /// Notes a Step that is sent. At want of memory nothing changes.
    pub fn push(&mut self, moment: Moment) -> Result<(), Mem>
        ensures ok { OnOk result ((self.new.moments ≡ self.old.moments ++ moment ∷ [])
            × (self.new.holds ≡ self.old.holds) × IsOnTempo self.old self.new) }
        ensures err { OnErr result (self.new ≡ self.old) }
    {
        self.moments.push(moment)
    }

    /// Takes back what was noted last.
    pub fn pop(&mut self)
        ensures moments { (moments : List Moment) (m : Moment)
            → self.old.moments ≡ moments ++ m ∷ [] → self.new.moments ≡ moments }
        ensures holds { self.new.holds ≡ self.old.holds }
        ensures same { IsOnTempo self.old self.new }
    {
        self.moments.pop();
    }

    /// The end of the run, where the Step that is to be sent next is later than is allowed; `None` where
    /// it isn't.
    pub fn too_late(&self, first: First, told: u64) -> Option<PaceEnd>
        requires { first.due.moment ≤ told }
        ensures some { IfSome result (λ end. IsTooLate first told self.now end) }
        ensures none { result ≡ None → (allowed : ℕ) → self.now.strict ≡ Some allowed
            → told ≤ first.due.moment + allowed }
    {
        let allowed = self.strict?;
        let late = told - first.due.moment;
        if late <= allowed {
            return None;
        }
        Some(PaceEnd::Late {
            sim: first.sim,
            time: first.due.at.time,
            late,
            allowed,
        })
    }
}
