//! The links of a run: what is queued, heard and said on them.
ghost use Rattle.std.specs.Prelude.{◌≡◌, ℕ, ◌+◌, ◌≤◌, ◌<◌, ◌^◌, List, [], ◌∷◌, ◌++◌, length, map, None, Some, Err, IfOk, IfSome, OnOk, OnErr, option_map, option_to_list};
ghost use Rattle.mk_frame.specs.Frames.{limit};
ghost use Rattle.mk_base.specs.declared.SimNo.{SimNo};
ghost use Rattle.mk_outside.specs.declared.fleet.LogEntry.{LogEntry};
ghost use Rattle.mk_outside.specs.Counts.{HasRisen};
ghost use Rattle.mk_outside.specs.Logs.{Adds};
ghost use Rattle.mk_run_laws.specs.Channels.{Channel, queued};
ghost use Rattle.mk_poll.specs.Links.{IsAdded};
ghost use Rattle.mk_run_laws.specs.Crews.{AreMoved, IsSentOnLink};
ghost use Rattle.mk_launch.specs.Starts.{links_in};
ghost use Rattle.mk_plan.specs.Sequential.{id_after};
ghost use Rattle.mk_run_links.specs.Crews.{HearsAs, IsLengthOf, StopsAll, TriesAs};
ghost use Rattle.mk_run_links.specs.Halts.{lasting, lasting_halt};
ghost use Rattle.mk_run_links.specs.Entries.{AreOn};
ghost use Rattle.mk_run_links.specs.Places.{AreDistinct, AreOpen, HasSmallNext, IsChannelLink, IsLinked, IsSet, at, crew, new_channel, new_channels};
ghost use Rattle.mk_run_links.specs.inner.Looks.{AreWoken, AreWokenBy, IsWokenAt, ListensAs, LooksAs, RestsAs, listened_of};
ghost use Rattle.mk_run_links.specs.inner.OneChannel.{link_of};
ghost use Rattle.mk_run_links.specs.inner.Standing.{HaveTurns};

use crate::answers::{LinkHalt, Listened, Looked};
use crate::channel::CrewChannel;
use crate::channels::CrewChannels;
use mk_base::{LinkNo, Mem, SimNo};
use mk_message::write_item;
use mk_outside::{Fleet, Waited};
use mk_plan::{Item, Message};
use mk_poll::Turns;
use mk_session::{Heard, Polled, QueueFault};
use std::alloc::Global;
use std::marker::Model;
use std::sync::Wait;

/// The links of a run, and the halt that `hear` and `try_hear` answer again.
#[derive(Drop)]
pub struct Links {
    channels: CrewChannels,
    turns: Turns,
    // The marks of the last rest, whose room the next one takes.
    marks: Vec<bool>,
    halt: Option<LinkHalt>,
}

impl Model for Links {
    ghost use Rattle.mk_run_links.specs.Seen.{Seen};
    ghost use Rattle.mk_run_links.specs.inner.Standing.{HaveTurns};

    ghost Value = { Seen };

    ghost view = { λ a. record { channels = a.channels; halt = a.halt } };

    ghost invariant = { λ a. HaveTurns a.channels a.turns };
}

// Adds the channel of the next simulator and a turn of its link, or no channel.
fn add_place(
    alloc: Global,
    channels: &mut CrewChannels,
    turns: &mut Turns,
    place: &Option<LinkNo>,
) -> Result<(), Mem>
    requires few { length channels.old + 1 < 2 ^ 32 }
    requires fresh { IfSome place.now (λ link. ¬ IsAdded link turns.old) }
    ensures channels { OnOk result (channels.new ≡ channels.old
        ++ option_map new_channel place.now ∷ []) }
    ensures ready { OnOk result (turns.new.ready ≡ turns.old.ready ++ option_to_list place.now) }
    ensures taken { OnOk result (turns.new.taken ≡ turns.old.taken) }
    ensures parked { OnOk result (turns.new.parked ≡ turns.old.parked) }
{
    match place {
        Some(link) => {
            channels.push(Some(CrewChannel::new(alloc, *link)?))?;
            turns.add(*link)
        }
        None => channels.push(None),
    }
}

/// The next id of a link behind an item, where this is the next one before it.
pub fn id_behind(item: &Item, id: u64) -> u64
    requires { id < 2 ^ 32 }
    ensures { result ≡ id_after id (item.now ∷ []) }
{
    match item {
        Item::Step { .. } | Item::GetData { .. } => id + 1,
        Item::Answer { .. } | Item::Refuse { .. } => id,
    }
}

// Makes as many marks as there are links.
fn count_marks(marks: &mut Vec<bool>, links: &[LinkNo]) -> Result<(), Mem>
    ensures { OnOk result (length marks.new.items ≡ length links.now) }
{
    marks.resize(links.len(), false)?;
    Ok(())
}

// The halt that is answered again after this one.
fn lasting_halt(halt: LinkHalt) -> Option<LinkHalt>
    ensures { result ≡ lasting_halt halt }
{
    match halt {
        LinkHalt::Mem => None,
        LinkHalt::Fleet | LinkHalt::Gone(_) | LinkHalt::Garbled(_, _) | LinkHalt::LongFrame(_, _) =>
            Some(halt),
    }
}

// What came of looks where this was heard of a simulator.
fn listened_of(sim: SimNo, heard: Heard) -> Listened
    ensures { result ≡ listened_of sim heard }
{
    match heard {
        Heard::Message(message) => Listened::Message(sim, message),
        Heard::Garbled(test) => Listened::Halted(LinkHalt::Garbled(sim, test)),
        Heard::TooLong(n) => Listened::Halted(LinkHalt::LongFrame(sim, n)),
        Heard::Closed => Listened::Halted(LinkHalt::Gone(sim)),
        Heard::Failed => Listened::Halted(LinkHalt::Fleet),
        Heard::Mem => Listened::Halted(LinkHalt::Mem),
    }
}

// Polls the link that has been ready for longest.
fn look<F: Fleet>(channels: &mut CrewChannels, turns: &mut Turns, fleet: &mut F) -> Looked
    requires stands { HaveTurns channels.old turns.old }
    requires open { AreOpen channels.old (F.open_links fleet.old) }
    ensures count { F.faults fleet.old ≤ F.faults fleet.new }
    ensures cause { (sim : SimNo) → result ≡ Looked.Heard sim Heard.Failed
        → HasRisen (F.faults fleet.old) (F.faults fleet.new) }
    ensures same_count { F.started fleet.new ≡ F.started fleet.old }
    ensures same_links { F.open_links fleet.new ≡ F.open_links fleet.old }
    ensures stands { HaveTurns channels.new turns.new }
    ensures fewer { result ≡ Looked.Parked → length turns.new.ready < length turns.old.ready }
    ensures looked { (entries : List LogEntry)
        × Adds entries (F.log fleet.old) (F.log fleet.new)
        × LooksAs result entries channels.old channels.new }
{
    let Some(link) = turns.take() else {
        return Looked::Quiet;
    };
    let Some(sim) = channels.sim_on(link) else {
        turns.park(link);
        return Looked::Parked;
    };
    let polled = channels.poll(sim, fleet);
    turns.park(link);
    match polled {
        Polled::Pending => Looked::Parked,
        Polled::Ready(heard) => {
            turns.ready(link);
            Looked::Heard(sim, heard)
        }
    }
}

// Polls links, each in its turn, until something is heard or all are parked. It waits for nobody.
fn listen<F: Fleet>(channels: &mut CrewChannels, turns: &mut Turns, fleet: &mut F) -> Listened
    requires stands { HaveTurns channels.old turns.old }
    requires open { AreOpen channels.old (F.open_links fleet.old) }
    ensures count { F.faults fleet.old ≤ F.faults fleet.new }
    ensures cause { result ≡ Listened.Halted LinkHalt.Fleet
        → HasRisen (F.faults fleet.old) (F.faults fleet.new) }
    ensures same_count { F.started fleet.new ≡ F.started fleet.old }
    ensures same_links { F.open_links fleet.new ≡ F.open_links fleet.old }
    ensures stands { HaveTurns channels.new turns.new }
    ensures listened { (entries : List LogEntry)
        × Adds entries (F.log fleet.old) (F.log fleet.new)
        × ListensAs result entries channels.old channels.new }
{
    'looking: loop {
        match look(channels, turns, fleet) {
            Looked::Heard(sim, heard) => return listened_of(sim, heard),
            Looked::Parked => {}
            Looked::Quiet => return Listened::Quiet,
        }
    }
}

// The channel of a simulator is no longer parked, and its link is ready.
fn wake(channels: &mut CrewChannels, turns: &mut Turns, sim: SimNo)
    requires stands { HaveTurns channels.old turns.old }
    requires linked { IsLinked sim.0 channels.old }
    ensures stands { HaveTurns channels.new turns.new }
    ensures woken { IsWokenAt sim.0 channels.old channels.new }
    ensures same_links { map link_of channels.new ≡ map link_of channels.old }
{
    let link = channels.link(sim);
    channels.wake(sim);
    turns.ready(link);
}

// The channels of the links whose places are marked are no longer parked, and these links are ready.
fn wake_marked(channels: &mut CrewChannels, turns: &mut Turns, marks: &[bool])
    requires stands { HaveTurns channels.old turns.old }
    requires places { length marks.now ≡ length (links_in (map link_of channels.old)) }
    ensures stands { HaveTurns channels.new turns.new }
    ensures woken { AreWokenBy marks.now channels.old channels.new }
{
    for k in 0..marks.len() {
        if marks[k] {
            let sim = channels.sim_at(k);
            wake(channels, turns, sim);
        }
    }
}

impl Links {
    /// The links at these places, one place for each simulator: nothing was heard on them, nothing is to be said, and
    /// the next id of each is 0.
    pub fn new(alloc: Global, links: &[Option<LinkNo>]) -> Result<Links, Mem>
        requires few { length links.now < 2 ^ 32 }
        requires distinct { AreDistinct links.now }
        ensures { IfOk result (λ made. made
            ≡ record { channels = new_channels links.now; halt = None }) }
    {
        let mut channels = CrewChannels::new(alloc);
        let mut turns = Turns::new(alloc);
        for place in links {
            add_place(alloc, &mut channels, &mut turns, place)?;
        }
        Ok(Links {
            channels,
            turns,
            marks: Vec::new(alloc),
            halt: None,
        })
    }

    /// The next id of a simulator's link.
    pub fn next(&self, sim: SimNo) -> u64
        requires { IsLinked sim.0 self.now.channels }
        ensures { (w : Channel) × (at self.now.channels sim.0 ≡ Some w) × (w.next ≡ result) }
    {
        self.channels.next(sim)
    }

    /// The halt that `hear` and `try_hear` answer again, if there is one.
    pub fn halt(&self) -> Option<LinkHalt>
        ensures { result ≡ self.now.halt }
    {
        self.halt
    }

    /// Queues a payload on a simulator's link, after which this is its next id. `TooLong` has the payload's length,
    /// which may be at most 67,108,864 bytes. After a fault nothing has changed.
    pub fn queue(&mut self, sim: SimNo, payload: &[u8], next: u64) -> Result<(), QueueFault>
        requires { IsLinked sim.0 self.old.channels }
        ensures ok { OnOk result ((w : Channel)
            × IsSet sim.0 w (queued payload.now next w) self.old.channels self.new.channels) }
        ensures allowed { OnOk result (length payload.now ≤ limit) }
        ensures too_long { (n : ℕ) → result ≡ Err (QueueFault.TooLong n) → n ≡ length payload.now }
        ensures too_long_only { (n : ℕ) → result ≡ Err (QueueFault.TooLong n) → limit < n }
        ensures err { OnErr result (self.new ≡ self.old) }
        ensures same_halt { self.new.halt ≡ self.old.halt }
    {
        let link = self.channels.link(sim);
        self.channels.queue(sim, payload, next)?;
        self.turns.ready(link);
        Ok(())
    }

    /// Queues an item on a simulator's link: a Step and a GetData with the link's next id, an Answer and a Refuse with
    /// the id of what they answer. `TooLong` has the length of the item's payload, which may have at most 67,108,864
    /// bytes; `Mem` means want of memory. After a fault nothing has changed.
    pub fn send(&mut self, alloc: Global, sim: SimNo, item: &Item) -> Result<(), QueueFault>
        requires linked { IsLinked sim.0 self.old.channels }
        requires small { HasSmallNext sim.0 self.old.channels }
        ensures ok { OnOk result ((w : Channel) × (at self.old.channels sim.0 ≡ Some w)
            × IsSentOnLink sim.0 item.now w.next (crew self.old.channels)
            (crew self.new.channels)) }
        ensures allowed { OnOk result ((n : ℕ) × IsLengthOf n item.now sim.0 self.old.channels
            × (n ≤ limit)) }
        ensures too_long { (n : ℕ) → result ≡ Err (QueueFault.TooLong n)
            → IsLengthOf n item.now sim.0 self.old.channels × (limit < n) }
        ensures err { OnErr result (self.new ≡ self.old) }
        ensures same_halt { self.new.halt ≡ self.old.halt }
    {
        let id = self.next(sim);
        let Ok(payload) = write_item(alloc, item, id) else {
            return Err(QueueFault::Mem);
        };
        self.queue(sim, &payload, id_behind(item, id))?;
        Ok(())
    }

    // Polls links, each in its turn, until something is heard or all are parked. It waits for nobody.
    fn listen<F: Fleet>(&mut self, fleet: &mut F) -> Listened
        requires { AreOpen self.old.channels (F.open_links fleet.old) }
        ensures count { F.faults fleet.old ≤ F.faults fleet.new }
        ensures cause { result ≡ Listened.Halted LinkHalt.Fleet
            → HasRisen (F.faults fleet.old) (F.faults fleet.new) }
        ensures same_count { F.started fleet.new ≡ F.started fleet.old }
        ensures same_links { F.open_links fleet.new ≡ F.open_links fleet.old }
        ensures same_halt { self.new.halt ≡ self.old.halt }
        ensures listened { (entries : List LogEntry)
            × Adds entries (F.log fleet.old) (F.log fleet.new)
            × ListensAs result entries self.old.channels self.new.channels }
    {
        listen(&mut self.channels, &mut self.turns, fleet)
    }

    // Waits on all links. Those that may be read or written again are no longer parked.
    fn rest<F: Fleet>(&mut self, fleet: &mut F) -> Result<(), LinkHalt>
        requires open { AreOpen self.old.channels (F.open_links fleet.old) }
        requires some { (i : ℕ) × IsLinked i self.old.channels }
        ensures count { F.faults fleet.old ≤ F.faults fleet.new }
        ensures cause { result ≡ Err LinkHalt.Fleet
            → HasRisen (F.faults fleet.old) (F.faults fleet.new) }
        ensures same_count { F.started fleet.new ≡ F.started fleet.old }
        ensures same_links { F.open_links fleet.new ≡ F.open_links fleet.old }
        ensures same_halt { self.new.halt ≡ self.old.halt }
        ensures rested { (entries : List LogEntry)
            × Adds entries (F.log fleet.old) (F.log fleet.new)
            × RestsAs result entries self.old.channels self.new.channels }
    {
        let links = self.channels.links();
        count_marks(&mut self.marks, links)?;
        match fleet.wait(links, &mut self.marks) {
            Waited::Marked => {
                wake_marked(&mut self.channels, &mut self.turns, &self.marks);
                Ok(())
            }
            Waited::Failed => Err(LinkHalt::Fleet),
            Waited::Mem => Err(LinkHalt::Mem),
        }
    }

    // The link of a simulator, if it has one, is no longer parked.
    fn wake_sim(&mut self, sim: SimNo)
        ensures same_halt { self.new.halt ≡ self.old.halt }
        ensures woken { IsWokenAt sim.0 self.old.channels self.new.channels }
    {
        if self.channels.has(sim) {
            wake(&mut self.channels, &mut self.turns, sim);
        }
    }

    // No link is parked any more.
    fn wake_all(&mut self)
        ensures same_halt { self.new.halt ≡ self.old.halt }
        ensures woken { AreWoken self.old.channels self.new.channels }
    {
        for i in 0..self.channels.len() {
            self.wake_sim(SimNo(i as u32));
        }
    }

    // Polls links, and waits on them where all are parked, until something is heard.
    fn hear_next<F: Fleet, R: Wait>(
        &mut self,
        rt: &R,
        fleet: &mut F,
    ) -> Result<(SimNo, Message), LinkHalt>
        requires open { AreOpen self.old.channels (F.open_links fleet.old) }
        requires some { (i : ℕ) × IsLinked i self.old.channels }
        ensures count { F.faults fleet.old ≤ F.faults fleet.new }
        ensures cause { result ≡ Err LinkHalt.Fleet
            → HasRisen (F.faults fleet.old) (F.faults fleet.new) }
        ensures same_count { F.started fleet.new ≡ F.started fleet.old }
        ensures same_links { F.open_links fleet.new ≡ F.open_links fleet.old }
        ensures same_halt { self.new.halt ≡ self.old.halt }
        ensures heard { (entries : List LogEntry) × Adds entries (F.log fleet.old) (F.log fleet.new)
            × HearsAs result entries self.old.channels self.new.channels
            × AreOn (IsChannelLink self.old.channels) entries }
    {
        for _ in rt.forever() {
            match self.listen(fleet) {
                Listened::Message(sim, message) => return Ok((sim, message)),
                Listened::Halted(halt) => return Err(halt),
                Listened::Quiet => match self.rest(fleet) {
                    Ok(()) => {}
                    Err(halt) => return Err(halt),
                },
            }
        }
        unreachable!()
    }

    // Polls each link once, until something is heard.
    fn try_next<F: Fleet>(&mut self, fleet: &mut F) -> Result<Option<(SimNo, Message)>, LinkHalt>
        requires open { AreOpen self.old.channels (F.open_links fleet.old) }
        ensures count { F.faults fleet.old ≤ F.faults fleet.new }
        ensures cause { result ≡ Err LinkHalt.Fleet
            → HasRisen (F.faults fleet.old) (F.faults fleet.new) }
        ensures same_count { F.started fleet.new ≡ F.started fleet.old }
        ensures same_links { F.open_links fleet.new ≡ F.open_links fleet.old }
        ensures same_halt { self.new.halt ≡ self.old.halt }
        ensures tried { (entries : List LogEntry)
            × Adds entries (F.log fleet.old) (F.log fleet.new)
            × TriesAs result entries self.old.channels self.new.channels }
    {
        self.wake_all();
        match self.listen(fleet) {
            Listened::Message(sim, message) => Ok(Some((sim, message))),
            Listened::Halted(halt) => Err(halt),
            Listened::Quiet => Ok(None),
        }
    }

    /// Gives the next message of a link, and whose it is. It says what is unsent, and waits for others where nothing
    /// comes. A halt but for want of memory is answered again by each later call, which then does nothing.
    pub fn hear<F: Fleet, R: Wait>(
        &mut self,
        rt: &R,
        fleet: &mut F,
    ) -> Result<(SimNo, Message), LinkHalt>
        requires open { AreOpen self.old.channels (F.open_links fleet.old) }
        requires some { (i : ℕ) × IsLinked i self.old.channels }
        ensures count { F.faults fleet.old ≤ F.faults fleet.new }
        ensures cause { self.old.halt ≡ None → result ≡ Err LinkHalt.Fleet
            → HasRisen (F.faults fleet.old) (F.faults fleet.new) }
        ensures same_count { F.started fleet.new ≡ F.started fleet.old }
        ensures same_links { F.open_links fleet.new ≡ F.open_links fleet.old }
        ensures again { (h : LinkHalt) → self.old.halt ≡ Some h → (result ≡ Err h)
            × (self.new ≡ self.old) × (fleet.new ≡ fleet.old) }
        ensures lasts { self.old.halt ≡ None → self.new.halt ≡ lasting result }
        ensures heard { self.old.halt ≡ None → (entries : List LogEntry)
            × Adds entries (F.log fleet.old) (F.log fleet.new)
            × HearsAs result entries self.old.channels self.new.channels
            × AreOn (IsChannelLink self.old.channels) entries }
    {
        if let Some(halt) = self.halt {
            return Err(halt);
        }
        match self.hear_next(rt, fleet) {
            Ok(heard) => Ok(heard),
            Err(halt) => {
                self.halt = lasting_halt(halt);
                Err(halt)
            }
        }
    }

    /// Gives the next message of a link, as `hear` does, but waits for nobody: it looks at the links until one gives a
    /// message, and gives `None` only where nothing has come on any of them and each has said all, or takes no more for
    /// now. A halt is answered again as by `hear`.
    pub fn try_hear<F: Fleet>(
        &mut self,
        fleet: &mut F,
    ) -> Result<Option<(SimNo, Message)>, LinkHalt>
        requires open { AreOpen self.old.channels (F.open_links fleet.old) }
        ensures count { F.faults fleet.old ≤ F.faults fleet.new }
        ensures cause { self.old.halt ≡ None → result ≡ Err LinkHalt.Fleet
            → HasRisen (F.faults fleet.old) (F.faults fleet.new) }
        ensures same_count { F.started fleet.new ≡ F.started fleet.old }
        ensures same_links { F.open_links fleet.new ≡ F.open_links fleet.old }
        ensures again { (h : LinkHalt) → self.old.halt ≡ Some h → (result ≡ Err h)
            × (self.new ≡ self.old) × (fleet.new ≡ fleet.old) }
        ensures lasts { self.old.halt ≡ None → self.new.halt ≡ lasting result }
        ensures tried { self.old.halt ≡ None → (entries : List LogEntry)
            × Adds entries (F.log fleet.old) (F.log fleet.new)
            × TriesAs result entries self.old.channels self.new.channels }
    {
        if let Some(halt) = self.halt {
            return Err(halt);
        }
        match self.try_next(fleet) {
            Ok(heard) => Ok(heard),
            Err(halt) => {
                self.halt = lasting_halt(halt);
                Err(halt)
            }
        }
    }

    /// Says what is unsent and then a stop on each link, until all is said there or a write takes nothing or fails. It
    /// takes no memory.
    pub fn stop<F: Fleet>(&self, fleet: &mut F)
        requires { AreOpen self.now.channels (F.open_links fleet.old) }
        ensures count { F.faults fleet.old ≤ F.faults fleet.new }
        ensures same_count { F.started fleet.new ≡ F.started fleet.old }
        ensures same_links { F.open_links fleet.new ≡ F.open_links fleet.old }
        ensures stopped { (entries : List LogEntry)
            × Adds entries (F.log fleet.old) (F.log fleet.new)
            × StopsAll entries (HasRisen (F.faults fleet.old) (F.faults fleet.new))
            self.now.channels }
    {
        for i in 0..self.channels.len() {
            self.channels.stop(SimNo(i as u32), fleet);
        }
    }
}
