//! A crew in a run: items sent, messages heard, and the stop.
ghost use Rattle.std.specs.Prelude.{◌≡◌, [], ◌∷◌, ◌≤◌, List, true, false, None, Some, Err, IfOk, IfSome, MatchOption, OnOk, OnErr};
ghost use Rattle.mk_outside.specs.declared.fleet.LogEntry.{LogEntry};
ghost use Rattle.mk_outside.specs.Counts.{HasRisen};
ghost use Rattle.mk_outside.specs.Logs.{Adds};
ghost use Rattle.mk_launch.specs.Starts.{links_in};
ghost use Rattle.mk_local.specs.declared.turn.Turn.{Turn};
ghost use Rattle.mk_local.specs.Registries.{rows_in};
ghost use Rattle.mk_local.specs.Replies.{IsItemReplied};
ghost use Rattle.mk_run_laws.specs.Crews.{AreStopped, IsHeard, IsRestless};
ghost use Rattle.mk_run_links.specs.declared.answers.LinkHalt.{LinkHalt};
ghost use Rattle.mk_run_links.specs.Entries.{AreOn};
ghost use Rattle.mk_run_links.specs.Places.{AreOpen, IsChannelLink, without_all};
ghost use Rattle.mk_plan.specs.Journals.{Arrival};
ghost use Rattle.mk_run_local.specs.Calls.{IsFitSuccess};
ghost use Rattle.mk_run_local.specs.Seen.{AreOf};
ghost use Rattle.mk_run_crew.specs.Calls.{CanHear, HasNext, HearsAs, IsAllowed, SendsAs, ShowsUnsent, TriesAs, halt_of, lasting};
ghost use Rattle.mk_run_crew.specs.inner.Calls.{unsent};
ghost use Rattle.mk_run_crew.specs.Seen.{crew_of, is_here, within_of};

use crate::halt::Halt;
use mk_base::{LinkNo, List, SimNo};
use mk_local::Registry;
use mk_outside::Fleet;
use mk_plan::{Item, Message};
use mk_run_links::{Links, close_all};
use mk_run_local::Within;
use mk_session::QueueFault;
use std::alloc::Global;
use std::marker::Model;
use std::sync::Wait;

/// The links of a run and its simulators within the program, whose replies are kept until they are heard.
#[derive(Drop)]
pub struct Crew {
    pub(crate) alloc: Global,
    // One place for each simulator.
    pub(crate) places: List<Option<LinkNo>>,
    pub(crate) links: Links,
    pub(crate) within: Within,
}

impl Model for Crew {
    ghost use Rattle.mk_base.specs.contracts.json.Json as json;
    ghost use Rattle.std.specs.Coded.{codes};
    ghost use Rattle.mk_run_crew.specs.Seen.{CrewSeen};
    ghost use Rattle.mk_run_crew.specs.inner.Placed.{IsPlaced};

    ghost Value = { CrewSeen };

    ghost coded = { Prim.hlevel (codes, json.the_row.coded) };

    ghost view = { λ a. record {
      places = a.places;
      channels = a.links.channels;
      sims = a.within.sims;
      kept = a.within.kept;
      halt = a.links.halt;
    } };

    ghost invariant = { λ a. IsPlaced a.places a.links.channels };
}

// The links' refusal of an item.
pub fn unsent(sim: SimNo, fault: QueueFault) -> Halt
    ensures { result ≡ unsent sim fault }
{
    match fault {
        QueueFault::TooLong(n) => Halt::LongItem(sim, n),
        QueueFault::Mem => Halt::Mem,
    }
}

impl Crew {
    // The places of its links; takes no memory.
    pub(crate) fn into_places(self) -> List<Option<LinkNo>>
        ensures { result ≡ self.places }
    {
        self.places
    }

    /// Sends an item to a simulator: a Step and a GetData with the next id of its link, an Answer and a Refuse, to a
    /// link, with the id of what they answer. A simulator within the program answers at once, and its reply is kept; it
    /// gets a Step at a time of 0 to 10^9, or a GetData. The kinds are those that it was begun with.
    ///
    /// `LongItem` has the length of the item's payload to a link, which may have at most 67,108,864 bytes. Besides
    /// there is want of memory alone. After a fault nothing has changed.
    pub fn send(&mut self, kinds: &Registry, sim: SimNo, item: &Item, id: u64) -> Result<(), Halt>
        requires known { AreOf (rows_in kinds.now) (within_of self.old) }
        requires replied { is_here self.old sim.0 ≡ true → IsItemReplied item.now }
        requires linked { is_here self.old sim.0 ≡ false → HasNext item.now id sim.0 self.old }
        ensures ok { OnOk result (SendsAs sim.0 item.now id self.old self.new) }
        ensures allowed { OnOk result (IsAllowed sim.0 item.now self.old) }
        ensures cause { (h : Halt) → result ≡ Err h → ShowsUnsent h sim.0 item.now self.old }
        ensures err { OnErr result (self.new ≡ self.old) }
        ensures same_places { self.new.places ≡ self.old.places }
        ensures same_halt { self.new.halt ≡ self.old.halt }
        ensures kinds { (rows : List Turn) → AreOf rows (within_of self.old)
            → AreOf rows (within_of self.new) }
    {
        if self.within.has(sim) {
            self.within.answer_item(kinds, sim, item, id)?;
            return Ok(());
        }
        match self.links.send(self.alloc, sim, item) {
            Ok(()) => Ok(()),
            Err(fault) => Err(unsent(sim, fault)),
        }
    }

    /// Gives the oldest reply that is kept of a simulator within the program, or where none is kept the next message of
    /// a link, for which it may wait. A halt but for want of memory is answered again by each later call, which then
    /// does nothing.
    pub fn hear<F: Fleet, R: Wait>(
        &mut self,
        rt: &R,
        fleet: &mut F,
    ) -> Result<(SimNo, Message), Halt>
        requires open { AreOpen self.old.channels (F.open_links fleet.old) }
        requires some { CanHear self.old }
        ensures count { F.faults fleet.old ≤ F.faults fleet.new }
        ensures cause { self.old.halt ≡ None → result ≡ Err Halt.Fleet
            → HasRisen (F.faults fleet.old) (F.faults fleet.new) }
        ensures same_count { F.started fleet.new ≡ F.started fleet.old }
        ensures same_links { F.open_links fleet.new ≡ F.open_links fleet.old }
        ensures same_places { self.new.places ≡ self.old.places }
        ensures same_sims { self.new.sims ≡ self.old.sims }
        ensures kinds { (rows : List Turn) → AreOf rows (within_of self.old)
            → AreOf rows (within_of self.new) }
        ensures fit { (k : Arrival) → (more : List Arrival) → self.old.kept ≡ k ∷ more
            → IfOk result (λ p. IsFitSuccess p.1) }
        ensures again { (why : LinkHalt) → self.old.halt ≡ Some why → (result ≡ Err (halt_of why))
            × (self.new ≡ self.old) × (fleet.new ≡ fleet.old) }
        ensures lasts { self.old.halt ≡ None → self.new.halt ≡ lasting result }
        ensures heard { self.old.halt ≡ None → (entries : List LogEntry)
            × Adds entries (F.log fleet.old) (F.log fleet.new)
            × HearsAs result entries self.old self.new
            × AreOn (IsChannelLink self.old.channels) entries }
    {
        if let Some(why) = self.links.halt() {
            return Err(Halt::from(why));
        }
        if let Some(heard) = self.within.take() {
            return Ok(heard);
        }
        match self.links.hear(rt, fleet) {
            Ok(heard) => Ok(heard),
            Err(why) => Err(Halt::from(why)),
        }
    }

    /// Gives a message as `hear` does, but waits for nobody: `None` only where no reply is kept of a simulator within
    /// the program, nothing has come on any link, and each link has said all, or takes no more for now. A halt is
    /// answered again as by `hear`.
    pub fn try_hear<F: Fleet>(&mut self, fleet: &mut F) -> Result<Option<(SimNo, Message)>, Halt>
        requires { AreOpen self.old.channels (F.open_links fleet.old) }
        ensures count { F.faults fleet.old ≤ F.faults fleet.new }
        ensures cause { self.old.halt ≡ None → result ≡ Err Halt.Fleet
            → HasRisen (F.faults fleet.old) (F.faults fleet.new) }
        ensures same_count { F.started fleet.new ≡ F.started fleet.old }
        ensures same_links { F.open_links fleet.new ≡ F.open_links fleet.old }
        ensures same_places { self.new.places ≡ self.old.places }
        ensures same_sims { self.new.sims ≡ self.old.sims }
        ensures kinds { (rows : List Turn) → AreOf rows (within_of self.old)
            → AreOf rows (within_of self.new) }
        ensures fit { (k : Arrival) → (more : List Arrival) → self.old.kept ≡ k ∷ more
            → IfOk result (λ o. IfSome o (λ p. IsFitSuccess p.1)) }
        ensures again { (why : LinkHalt) → self.old.halt ≡ Some why → (result ≡ Err (halt_of why))
            × (self.new ≡ self.old) × (fleet.new ≡ fleet.old) }
        ensures lasts { self.old.halt ≡ None → self.new.halt ≡ lasting result }
        ensures tried { self.old.halt ≡ None → (entries : List LogEntry)
            × Adds entries (F.log fleet.old) (F.log fleet.new)
            × TriesAs result entries self.old self.new }
    {
        if let Some(why) = self.links.halt() {
            return Err(Halt::from(why));
        }
        if let Some(heard) = self.within.take() {
            return Ok(Some(heard));
        }
        match self.links.try_hear(fleet) {
            Ok(heard) => Ok(heard),
            Err(why) => Err(Halt::from(why)),
        }
    }

    /// Takes the oldest reply that is kept of a simulator within the program; `None` exactly where none is. It takes no
    /// memory, and waits for nobody.
    pub fn take_kept(&mut self) -> Option<(SimNo, Message)>
        ensures taken { MatchOption result ((self.old.kept ≡ [])
            × (self.new ≡ self.old))
            (λ r. IsHeard [] r.0.0 r.1 (crew_of self.old) (crew_of self.new)) }
        ensures fit { IfSome result (λ r. IsFitSuccess r.1) }
        ensures same_channels { self.new.channels ≡ self.old.channels }
        ensures same_places { self.new.places ≡ self.old.places }
        ensures same_sims { self.new.sims ≡ self.old.sims }
        ensures same_halt { self.new.halt ≡ self.old.halt }
        ensures kinds { (rows : List Turn) → AreOf rows (within_of self.old)
            → AreOf rows (within_of self.new) }
    {
        self.within.take()
    }

    /// Says what is unsent and then a stop on each link, until all is said there or a write takes nothing or fails, and
    /// closes the links. It takes no memory, and may wait for others.
    pub fn stop<F: Fleet>(self, fleet: &mut F)
        requires { AreOpen self.channels (F.open_links fleet.old) }
        ensures count { F.faults fleet.old ≤ F.faults fleet.new }
        ensures same_count { F.started fleet.new ≡ F.started fleet.old }
        ensures closed { F.open_links fleet.new
            ≡ without_all (links_in self.places) (F.open_links fleet.old) }
        ensures stopped { (entries : List LogEntry)
            × Adds entries (F.log fleet.old) (F.log fleet.new)
            × AreStopped entries (HasRisen (F.faults fleet.old) (F.faults fleet.new)) (crew_of self)
            × IsRestless entries × AreOn (IsChannelLink self.channels) entries }
    {
        self.links.stop(fleet);
        close_all(self.places.as_slice(), fleet);
    }
}
