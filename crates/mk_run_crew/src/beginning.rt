//! The begin of a crew: the start of the simulators, and the handshake, with requests on links.
ghost use Rattle.std.specs.Prelude.{◌≡◌, ◌≤◌, ◌<◌, ◌+◌, ◌⊎◌, ◌^◌, ℕ, List, [], ◌++◌, true, false, Some, None, length, map, IfOk, IfErr, OnOk, OnErr};
ghost use Rattle.mk_base.specs.declared.LinkNo.{LinkNo};
ghost use Rattle.mk_message.specs.Written.{call_text, is_call_in_range};
ghost use Rattle.mk_outside.specs.declared.fleet.LogEntry.{LogEntry};
ghost use Rattle.mk_outside.specs.Counts.{HasRisen};
ghost use Rattle.mk_outside.specs.Logs.{Adds};
ghost use Rattle.mk_scenario.specs.Wellformed.{IsWellformed};
ghost use Rattle.mk_launch.specs.Ready.{IsPrepared};
ghost use Rattle.mk_launch.specs.Starts.{AreNumbered, AreStarted, links_in};
ghost use Rattle.mk_launch.specs.Starts as starts;
ghost use Rattle.mk_run_crew.specs.Attempts.{Attempt, attempt};
ghost use Rattle.mk_local.specs.Kinds.{name_of};
ghost use Rattle.mk_local.specs.Registries.{rows_in};
ghost use Rattle.mk_run_laws.specs.Channels.{Channel, queued};
ghost use Rattle.mk_run_laws.specs.Payloads.{IsFramed};
ghost use Rattle.mk_run_links.specs.Entries.{IsClockless};
ghost use Rattle.mk_run_links.specs.Places.{AreOpen, AreDistinct, IsLinked, IsSet, at, new_channels, without_all};
ghost use Rattle.mk_setup.specs.Handshakes.{begun};
ghost use Rattle.mk_setup.specs.Ranked.{AreRanksOf};
ghost use Rattle.mk_run_local.specs.Seen.{AreOf, new_within};
ghost use Rattle.mk_run_crew.specs.inner.Asking.{Answers, AnswersNot, AsksFail, AsksOnLink, IsHalting, IsLinkNext, IsNewCrew, IsUnqueued};
ghost use Rattle.mk_run_crew.specs.inner.Calls.{start_halt};
ghost use Rattle.mk_run_crew.specs.Begun.{HasBegun};
ghost use Rattle.mk_run_crew.specs.Halted.{HasHalted};
ghost use Rattle.mk_run_crew.specs.Started.{IsOfStart, StartsLinks};
ghost use Rattle.mk_run_crew.specs.Seen.{is_here};
ghost use Rattle.mk_run_crew.specs.declared.halt.Halt.TheVariants as halts;

use crate::asking::{Stage, take_answer};
use crate::crew::{Crew, unsent};
use crate::halt::Halt;
use mk_base::{LinkNo, List, Mem, SimNo};
use mk_launch::{StartFault, start_all};
use mk_local::Registry;
use mk_message::write_call;
use mk_outside::Fleet;
use mk_plan::{Call, Message, Plan};
use mk_run_links::{Links, close_all, places_are_distinct};
use mk_run_local::Within;
use mk_scenario::Scenario;
use mk_setup::{Setup, replies_make};
use std::alloc::Global;
use std::sync::Wait;

// The halt that a fault of the start is.
fn start_halt(fault: StartFault) -> Halt
    ensures { result ≡ start_halt fault }
{
    match fault {
        StartFault::Failed(_) => Halt::Fleet,
        StartFault::Mem => Halt::Mem,
    }
}

// Starts the simulators. At a halt those links that were started have been closed.
fn start<F: Fleet>(
    alloc: Global,
    scenario: &Scenario,
    fleet: &mut F,
) -> Result<List<Option<LinkNo>>, Halt>
    requires few { length scenario.now.sims < 2 ^ 32 }
    requires prepared { (kinds : List (List ℕ)) × IsPrepared scenario.now kinds }
    ensures started { IfOk result (λ places. AreStarted scenario.now.sims
        (record { started = F.started fleet.old; links = F.open_links fleet.old })
        (record { started = F.started fleet.new; links = F.open_links fleet.new }) places) }
    ensures cause { IfErr result (λ h. (h ≡ halts.Mem)
        ⊎ ((h ≡ halts.Fleet) × HasRisen (F.faults fleet.old) (F.faults fleet.new))) }
    ensures closed { OnErr result (AreNumbered (F.started fleet.old) (F.open_links fleet.old)
        → F.open_links fleet.new ≡ F.open_links fleet.old) }
    ensures most { OnErr result ((F.started fleet.old ≤ F.started fleet.new)
        × (F.started fleet.new ≤ F.started fleet.old + length scenario.now.sims)) }
    ensures count { F.faults fleet.old ≤ F.faults fleet.new }
    ensures logged { Adds [] (F.log fleet.old) (F.log fleet.new) }
{
    places_are_distinct();
    let mut places = List::new(alloc);
    match start_all(alloc, scenario, fleet, &mut places) {
        Ok(()) => Ok(places),
        Err(fault) => {
            close_all(places.as_slice(), fleet);
            Err(start_halt(fault))
        }
    }
}

// The channels of links at these places, and the simulators within the program, before any request.
fn make_links(
    alloc: Global,
    scenario: &Scenario,
    places: &[Option<LinkNo>],
    kinds: &Registry,
) -> Result<(Links, Within), Mem>
    requires prepared { IsPrepared scenario.now (map name_of (rows_in kinds.now)) }
    requires few { length places.now < 2 ^ 32 }
    requires distinct { AreDistinct places.now }
    ensures links { IfOk result (λ r. r.0
        ≡ record { channels = new_channels places.now; halt = None }) }
    ensures within { IfOk result (λ r. r.1 ≡ new_within (rows_in kinds.now) scenario.now) }
    ensures known { IfOk result (λ r. AreOf (rows_in kinds.now) r.1) }
{
    let links = Links::new(alloc, places)?;
    let within = Within::new(alloc, scenario, kinds)?;
    Ok((links, within))
}

// The crew of these places and its setup, before any request; at want of memory the places again.
pub fn new_crew(
    alloc: Global,
    scenario: Scenario,
    ranks: List<u32>,
    places: List<Option<LinkNo>>,
    kinds: &Registry,
) -> Result<(Crew, Setup), List<Option<LinkNo>>>
    requires wellformed { IsWellformed scenario }
    requires ranked { AreRanksOf scenario ranks }
    requires prepared { IsPrepared scenario (map name_of (rows_in kinds.now)) }
    requires placed { (started : ℕ) × (places ≡ starts.places started scenario.sims) }
    ensures places { IfOk result (λ r. r.0.places ≡ places) }
    ensures channels { IfOk result (λ r. r.0.channels ≡ new_channels places) }
    ensures new { IfOk result (λ r. (started : ℕ) → (old open_links : List LinkNo)
        → places ≡ starts.places started scenario.sims → open_links ≡ old ++ links_in places
        → IsNewCrew started (rows_in kinds.now) r.1.scenario open_links r.0) }
    ensures begun { IfOk result (λ r. r.1 ≡ begun scenario ranks) }
    ensures back { IfErr result (λ again. again ≡ places) }
{
    places_are_distinct();
    let (links, within) = match make_links(alloc, &scenario, places.as_slice(), kinds) {
        Ok(made) => made,
        Err(Mem) => return Err(places),
    };
    let crew = Crew {
        alloc,
        places,
        links,
        within,
    };
    match Setup::new(alloc, scenario, ranks) {
        Ok(setup) => Ok((crew, setup)),
        Err(Mem) => Err(crew.into_places()),
    }
}

// Queues a request on a simulator's link. After a halt nothing has changed.
fn queue_call(
    alloc: Global,
    links: &mut Links,
    sim: SimNo,
    call: &Call,
    id: u64,
) -> Result<(), Halt>
    requires linked { IsLinked sim.0 links.old.channels }
    requires range { is_call_in_range call.now ≡ true }
    requires few { id < 2 ^ 32 }
    ensures ok { OnOk result ((w : Channel)
        × IsSet sim.0 w (queued (call_text id call.now) (id + 1) w) links.old.channels
        links.new.channels) }
    ensures framed { OnOk result (IsFramed (call_text id call.now)) }
    ensures why { IfErr result (λ h. IsUnqueued h sim.0 call.now id) }
    ensures err { OnErr result (links.new ≡ links.old) }
    ensures same_halt { links.new.halt ≡ links.old.halt }
{
    let payload = write_call(alloc, call, id)?;
    match links.queue(sim, &payload, id + 1) {
        Ok(()) => Ok(()),
        Err(fault) => Err(unsent(sim, fault)),
    }
}

// Frees what a setup holds.
pub fn let_go(_setup: Setup) {}

impl Crew {
    // Queues a request on a simulator's link, and gives the next message of any link.
    fn ask_link<F: Fleet, R: Wait>(
        &mut self,
        rt: &R,
        fleet: &mut F,
        sim: SimNo,
        call: &Call,
        id: u64,
    ) -> Result<(SimNo, Message), Halt>
        requires away { is_here self.old sim.0 ≡ false }
        requires linked { (w : Channel) × (at self.old.channels sim.0 ≡ Some w) }
        requires open { AreOpen self.old.channels (F.open_links fleet.old) }
        requires range { is_call_in_range call.now ≡ true }
        requires few { id < 2 ^ 32 }
        requires going { self.old.halt ≡ None }
        ensures count { F.faults fleet.old ≤ F.faults fleet.new }
        ensures cause { result ≡ Err Halt.Fleet
            → HasRisen (F.faults fleet.old) (F.faults fleet.new) }
        ensures same_count { F.started fleet.new ≡ F.started fleet.old }
        ensures same_links { F.open_links fleet.new ≡ F.open_links fleet.old }
        ensures same_places { self.new.places ≡ self.old.places }
        ensures open { AreOpen self.new.channels (F.open_links fleet.new) }
        ensures ok { IfOk result (λ r. (entries : List LogEntry)
            × Adds entries (F.log fleet.old) (F.log fleet.new)
            × AsksOnLink sim.0 call.now id r.0.0 r.1 entries self.old self.new) }
        ensures err { IfErr result (λ h. (entries : List LogEntry)
            × Adds entries (F.log fleet.old) (F.log fleet.new)
            × AsksFail h sim.0 call.now id entries self.old self.new) }
    {
        if let Err(halt) = queue_call(self.alloc, &mut self.links, sim, call, id) {
            return Err(halt);
        }
        match self.links.hear(rt, fleet) {
            Ok(heard) => Ok(heard),
            Err(why) => Err(Halt::from(why)),
        }
    }

    // Makes the request that a setup has asked for on a link, and hands it the message that comes.
    fn make_request<F: Fleet, R: Wait>(
        &mut self,
        rt: &R,
        fleet: &mut F,
        setup: &mut Setup,
        sim: SimNo,
        call: Call,
        id: u64,
    ) -> Result<(), Halt>
        requires next { (A : Attempt) × IsLinkNext A sim call id self.old setup.old }
        requires open { AreOpen self.old.channels (F.open_links fleet.old) }
        ensures count { F.faults fleet.old ≤ F.faults fleet.new }
        ensures same_count { F.started fleet.new ≡ F.started fleet.old }
        ensures same_links { F.open_links fleet.new ≡ F.open_links fleet.old }
        ensures same_places { self.new.places ≡ self.old.places }
        ensures open { AreOpen self.new.channels (F.open_links fleet.new) }
        ensures ok { OnOk result ((entries : List LogEntry)
            × Adds entries (F.log fleet.old) (F.log fleet.new)
            × Answers sim.0 call id entries self.old self.new setup.old setup.new) }
        ensures err { IfErr result (λ h. (entries : List LogEntry)
            × Adds entries (F.log fleet.old) (F.log fleet.new)
            × AnswersNot (HasRisen (F.faults fleet.old) (F.faults fleet.new)) h sim.0 call id
            entries self.old self.new setup.old) }
    {
        let (from, message) = self.ask_link(rt, fleet, sim, &call, id)?;
        take_answer(setup, from, &message)
    }

    // Makes the requests of a setup, each after the reply to the one before, and gives the plan.
    fn set_up<F: Fleet, R: Wait>(
        &mut self,
        rt: &R,
        kinds: &Registry,
        fleet: &mut F,
        setup: &mut Setup,
    ) -> Result<Plan, Halt>
        requires begun { setup.old ≡ begun setup.old.scenario setup.old.ranks }
        requires prepared { IsPrepared setup.old.scenario (map name_of (rows_in kinds.now)) }
        requires new { (started : ℕ)
            × IsNewCrew started (rows_in kinds.now) setup.old.scenario
            (F.open_links fleet.old) self.old }
        ensures count { F.faults fleet.old ≤ F.faults fleet.new }
        ensures same_count { F.started fleet.new ≡ F.started fleet.old }
        ensures same_links { F.open_links fleet.new ≡ F.open_links fleet.old }
        ensures same_places { self.new.places ≡ self.old.places }
        ensures open { AreOpen self.new.channels (F.open_links fleet.new) }
        ensures ok { IfOk result (λ P. (started : ℕ)
            → IsNewCrew started (rows_in kinds.now) setup.old.scenario
            (F.open_links fleet.old) self.old
            → (entries : List LogEntry) × Adds entries (F.log fleet.old) (F.log fleet.new)
            × HasBegun (attempt started setup.old.scenario setup.old.ranks
            (rows_in kinds.now) entries) self.new P) }
        ensures err { IfErr result (λ h. (started : ℕ)
            → IsNewCrew started (rows_in kinds.now) setup.old.scenario
            (F.open_links fleet.old) self.old
            → (entries : List LogEntry) × Adds entries (F.log fleet.old) (F.log fleet.new)
            × IsHalting (attempt started setup.old.scenario setup.old.ranks (rows_in kinds.now)
            entries) (HasRisen (F.faults fleet.old) (F.faults fleet.new)) h self.new) }
    {
        replies_make();
        for _ in rt.forever() {
            match self.set_up_within(kinds, setup) {
                Ok(Stage::Linked { sim, call, id }) => {
                    if let Err(halt) = self.make_request(rt, fleet, setup, sim, call, id) {
                        return Err(halt);
                    }
                }
                Ok(Stage::Planned(plan)) => return Ok(plan),
                Err(halt) => return Err(halt),
            }
        }
        unreachable!()
    }

    // Makes the handshake of a new crew, which is stopped where it has no plan.
    fn shake<F: Fleet, R: Wait>(
        self,
        rt: &R,
        kinds: &Registry,
        fleet: &mut F,
        setup: Setup,
    ) -> Result<(Crew, Plan), Halt>
        requires begun { setup ≡ begun setup.scenario setup.ranks }
        requires prepared { IsPrepared setup.scenario (map name_of (rows_in kinds.now)) }
        requires new { (started : ℕ)
            × IsNewCrew started (rows_in kinds.now) setup.scenario (F.open_links fleet.old) self }
        ensures count { F.faults fleet.old ≤ F.faults fleet.new }
        ensures same_count { F.started fleet.new ≡ F.started fleet.old }
        ensures same_links { OnOk result (F.open_links fleet.new ≡ F.open_links fleet.old) }
        ensures same_places { IfOk result (λ r. r.0.places ≡ self.places) }
        ensures open { IfOk result (λ r. AreOpen r.0.channels (F.open_links fleet.new)) }
        ensures ok { IfOk result (λ r. (started : ℕ)
            → IsNewCrew started (rows_in kinds.now) setup.scenario (F.open_links fleet.old) self
            → (entries : List LogEntry) × Adds entries (F.log fleet.old) (F.log fleet.new)
            × HasBegun (attempt started setup.scenario setup.ranks (rows_in kinds.now) entries) r.0
            r.1) }
        ensures err { IfErr result (λ h. (started faults : ℕ) → faults ≤ F.faults fleet.old
            → IsNewCrew started (rows_in kinds.now) setup.scenario (F.open_links fleet.old) self
            → (entries : List LogEntry) × Adds entries (F.log fleet.old) (F.log fleet.new)
            × HasHalted (attempt started setup.scenario setup.ranks (rows_in kinds.now) entries)
            (HasRisen faults (F.faults fleet.new)) h × IsClockless entries) }
        ensures closed { OnErr result (F.open_links fleet.new
            ≡ without_all (links_in self.places) (F.open_links fleet.old)) }
    {
        let mut crew = self;
        let mut setup = setup;
        match crew.set_up(rt, kinds, fleet, &mut setup) {
            Ok(plan) => {
                let_go(setup);
                Ok((crew, plan))
            }
            Err(halt) => {
                let_go(setup);
                crew.stop(fleet);
                Err(halt)
            }
        }
    }

    /// Starts the simulators of a prepared scenario with these ranks, and makes the handshake: `init` to each of them,
    /// `create` for each group, `setup_done` to each, one request after the reply to another. The plan is made of their
    /// replies. It may wait for others.
    ///
    /// At a halt each link that was started has been stopped, if its channel was there, and closed.
    pub fn begin<F: Fleet, R: Wait>(
        rt: &R,
        alloc: Global,
        scenario: Scenario,
        ranks: List<u32>,
        fleet: &mut F,
        kinds: &Registry,
    ) -> Result<(Crew, Plan), Halt>
        requires wellformed { IsWellformed scenario }
        requires ranked { AreRanksOf scenario ranks }
        requires prepared { IsPrepared scenario (map name_of (rows_in kinds.now)) }
        ensures count { F.faults fleet.old ≤ F.faults fleet.new }
        ensures begun { IfOk result (λ r. (entries : List LogEntry)
            × Adds entries (F.log fleet.old) (F.log fleet.new)
            × HasBegun (attempt (F.started fleet.old) scenario ranks (rows_in kinds.now) entries)
            r.0 r.1) }
        ensures started { IfOk result (λ r. AreStarted scenario.sims
            (record { started = F.started fleet.old; links = F.open_links fleet.old })
            (record { started = F.started fleet.new; links = F.open_links fleet.new }) r.0.places) }
        ensures others { IfOk result
            (λ r. AreNumbered (F.started fleet.old) (F.open_links fleet.old)
            → without_all (links_in r.0.places) (F.open_links fleet.new) ≡ F.open_links fleet.old) }
        ensures open { IfOk result (λ r. AreOpen r.0.channels (F.open_links fleet.new)) }
        ensures halted { IfErr result (λ h. (entries : List LogEntry)
            × Adds entries (F.log fleet.old) (F.log fleet.new)
            × HasHalted (attempt (F.started fleet.old) scenario ranks (rows_in kinds.now) entries)
            (HasRisen (F.faults fleet.old) (F.faults fleet.new)) h × IsClockless entries
            × StartsLinks scenario (F.started fleet.old) (F.started fleet.new)
            (IsOfStart h entries)) }
        ensures closed { OnErr result (AreNumbered (F.started fleet.old) (F.open_links fleet.old)
            → F.open_links fleet.new ≡ F.open_links fleet.old) }
    {
        places_are_distinct();
        let places = match start(alloc, &scenario, fleet) {
            Ok(places) => places,
            Err(halt) => return Err(halt),
        };
        let (crew, setup) = match new_crew(alloc, scenario, ranks, places, kinds) {
            Ok(made) => made,
            Err(places) => {
                close_all(places.as_slice(), fleet);
                return Err(Halt::Mem);
            }
        };
        match crew.shake(rt, kinds, fleet, setup) {
            Ok(begun) => Ok(begun),
            Err(halt) => Err(halt),
        }
    }
}
