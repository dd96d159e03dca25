//! The channels of a crew, each at the place of its simulator.
ghost use Rattle.std.specs.Prelude.{◌≡◌, ℕ, ◌+◌, ◌≤◌, ◌<◌, ◌^◌, List, [], ◌∷◌, ◌++◌, length, map, slice_get, true, false, None, Some, Err, IfOk, IfSome, OnOk, OnErr};
ghost use Rattle.mk_frame.specs.Frames.{limit};
ghost use Rattle.mk_launch.specs.Starts.{links_in};
ghost use Rattle.mk_outside.specs.declared.fleet.LogEntry.{LogEntry};
ghost use Rattle.mk_outside.specs.Counts.{HasRisen};
ghost use Rattle.mk_outside.specs.Logs.{Adds};
ghost use Rattle.mk_run_laws.specs.Channels.{Channel, queued};
ghost use Rattle.mk_run_links.specs.inner.OneChannel.{PollsAt, StopsAt, link_of, unparked};
ghost use Rattle.mk_run_links.specs.Places.{IsLinked, IsOpenAt, IsSet, at};

use crate::channel::CrewChannel;
use mk_base::{LinkNo, Mem, SimNo};
use mk_outside::Fleet;
use mk_session::{Heard, Polled, QueueFault};
use std::alloc::Global;
use std::marker::Model;

// The channels of a crew; a simulator within the program has none.
#[derive(Drop)]
pub struct CrewChannels {
    channels: Vec<Option<CrewChannel>>,
    // The links of the channels, and the simulators on these, in their order.
    links: Vec<LinkNo>,
    sims: Vec<SimNo>,
}

impl Model for CrewChannels {
    ghost use Rattle.std.specs.Prelude.{List, Option, length, map, ◌<◌, ◌^◌};
    ghost use Rattle.mk_run_laws.specs.Channels.{Channel};
    ghost use Rattle.mk_run_links.specs.inner.Index.{AreListed};
    ghost use Rattle.mk_run_links.specs.inner.OneChannel.{link_of};

    ghost Value = { List (Option Channel) };

    ghost view = { λ a. a.channels.items };

    ghost invariant = { λ a. (length a.channels.items < 2 ^ 32)
        × AreListed (map link_of a.channels.items) a.links.items a.sims.items };
}

// The link of a channel, if there is one.
fn link_of(channel: &Option<CrewChannel>) -> Option<LinkNo>
    ensures { result ≡ link_of channel.now }
{
    match channel {
        Some(channel) => Some(channel.link()),
        None => None,
    }
}

// The place of a link among others. Where these are numbered one after another, as those of a run are, no other place
// is looked at.
fn place_of(links: &[LinkNo], link: LinkNo) -> Option<usize>
    ensures some { IfSome result (λ k. slice_get links.now k ≡ Some link) }
    ensures none { result ≡ None → (k : ℕ) → slice_get links.now k ≡ Some link → ⊥ }
{
    let first = links.first()?;
    let likely = link.0.wrapping_sub(first.0) as usize;
    match links.get(likely) {
        Some(there) if there.0 == link.0 => Some(likely),
        Some(_) | None => links.iter().position(|other| other.0 == link.0),
    }
}

impl CrewChannels {
    pub fn new(alloc: Global) -> CrewChannels
        ensures { result ≡ [] }
    {
        CrewChannels {
            channels: Vec::new(alloc),
            links: Vec::new(alloc),
            sims: Vec::new(alloc),
        }
    }

    // Adds the channel of the next simulator, or none. At want of memory nothing changes.
    pub fn push(&mut self, channel: Option<CrewChannel>) -> Result<(), Mem>
        requires { length self.old + 1 < 2 ^ 32 }
        ensures ok { OnOk result (self.new ≡ self.old ++ channel ∷ []) }
        ensures err { OnErr result (self.new ≡ self.old) }
    {
        let sim = SimNo(self.channels.len() as u32);
        let link = link_of(&channel);
        self.links.reserve(1)?;
        self.sims.reserve(1)?;
        self.channels.push(channel)?;
        if let Some(link) = link {
            self.links.push_reserved(link);
            self.sims.push_reserved(sim);
        }
        Ok(())
    }

    // How many simulators there are.
    pub fn len(&self) -> usize
        ensures count { result ≡ length self.now }
        ensures few { length self.now < 2 ^ 32 }
    {
        self.channels.len()
    }

    // The link of a simulator's channel.
    pub fn link(&self, sim: SimNo) -> LinkNo
        requires { IsLinked sim.0 self.now }
        ensures { (w : Channel) × (at self.now sim.0 ≡ Some w) × (w.link ≡ result) }
    {
        match &self.channels[sim.0 as usize] {
            Some(channel) => channel.link(),
            None => unreachable!(),
        }
    }

    // Whether a simulator has a channel.
    pub fn has(&self, sim: SimNo) -> bool
        ensures some { result ≡ true → IsLinked sim.0 self.now }
        ensures none { result ≡ false → at self.now sim.0 ≡ None }
    {
        match self.channels.get(sim.0 as usize) {
            Some(Some(_)) => true,
            Some(None) | None => false,
        }
    }

    // The next id of a simulator's channel.
    pub fn next(&self, sim: SimNo) -> u64
        requires { IsLinked sim.0 self.now }
        ensures { (w : Channel) × (at self.now sim.0 ≡ Some w) × (w.next ≡ result) }
    {
        match &self.channels[sim.0 as usize] {
            Some(channel) => channel.next(),
            None => unreachable!(),
        }
    }

    // The simulator whose channel is on this link, if there is one.
    pub fn sim_on(&self, link: LinkNo) -> Option<SimNo>
        ensures some { IfSome result (λ sim. (w : Channel) × (at self.now sim.0 ≡ Some w)
            × (w.link ≡ link)) }
        ensures none { result ≡ None → (i : ℕ) (w : Channel) → at self.now i ≡ Some w
            → w.link ≡ link
            → ⊥ }
    {
        let k = place_of(&self.links, link)?;
        Some(self.sims[k])
    }

    // The links of all channels, in the order of the simulators.
    pub fn links(&self) -> &[LinkNo]
        ensures { result.now ≡ links_in (map link_of self.now) }
    {
        self.links.as_slice()
    }

    // The simulator on the link at this place of `links`.
    pub fn sim_at(&self, k: usize) -> SimNo
        requires { k < length (links_in (map link_of self.now)) }
        ensures { (w : Channel) × (at self.now result.0 ≡ Some w)
            × (slice_get (links_in (map link_of self.now)) k ≡ Some w.link) }
    {
        self.sims[k]
    }

    // The channel of a simulator is no longer parked.
    pub fn wake(&mut self, sim: SimNo)
        requires { IsLinked sim.0 self.old }
        ensures woken { (w : Channel) × IsSet sim.0 w (unparked w) self.old self.new }
        ensures same_links { map link_of self.new ≡ map link_of self.old }
    {
        match &mut self.channels[sim.0 as usize] {
            Some(channel) => channel.wake(),
            None => unreachable!(),
        }
    }

    // Queues a payload on the channel of a simulator, which isn't parked then and has this next id. After a fault
    // nothing has changed.
    pub fn queue(&mut self, sim: SimNo, payload: &[u8], next: u64) -> Result<(), QueueFault>
        requires { IsLinked sim.0 self.old }
        ensures ok { OnOk result ((w : Channel)
            × IsSet sim.0 w (queued payload.now next w) self.old self.new) }
        ensures allowed { OnOk result (length payload.now ≤ limit) }
        ensures too_long { (n : ℕ) → result ≡ Err (QueueFault.TooLong n) → n ≡ length payload.now }
        ensures too_long_only { (n : ℕ) → result ≡ Err (QueueFault.TooLong n) → limit < n }
        ensures err { OnErr result (self.new ≡ self.old) }
    {
        match &mut self.channels[sim.0 as usize] {
            Some(channel) => channel.queue(payload, next),
            None => unreachable!(),
        }
    }

    // Polls the channel of a simulator.
    pub fn poll<F: Fleet>(&mut self, sim: SimNo, fleet: &mut F) -> Polled
        requires there { IsLinked sim.0 self.old }
        requires open { IsOpenAt sim.0 self.old (F.open_links fleet.old) }
        ensures count { F.faults fleet.old ≤ F.faults fleet.new }
        ensures cause { result ≡ Polled.Ready Heard.Failed
            → HasRisen (F.faults fleet.old) (F.faults fleet.new) }
        ensures same_count { F.started fleet.new ≡ F.started fleet.old }
        ensures same_links { F.open_links fleet.new ≡ F.open_links fleet.old }
        ensures polled { (entries : List LogEntry)
            × Adds entries (F.log fleet.old) (F.log fleet.new)
            × PollsAt result sim.0 self.old entries self.new }
    {
        match &mut self.channels[sim.0 as usize] {
            Some(channel) => channel.poll(fleet),
            None => unreachable!(),
        }
    }

    // Says what is unsent on the channel of a simulator, and a stop, until all is said or a write takes nothing or
    // fails; where there is no channel nothing is done. It takes no memory.
    pub fn stop<F: Fleet>(&self, sim: SimNo, fleet: &mut F)
        requires there { sim.0 < length self.now }
        requires open { IsOpenAt sim.0 self.now (F.open_links fleet.old) }
        ensures count { F.faults fleet.old ≤ F.faults fleet.new }
        ensures same_count { F.started fleet.new ≡ F.started fleet.old }
        ensures same_links { F.open_links fleet.new ≡ F.open_links fleet.old }
        ensures stopped { (entries : List LogEntry)
            × Adds entries (F.log fleet.old) (F.log fleet.new)
            × StopsAt sim.0 self.now (HasRisen (F.faults fleet.old) (F.faults fleet.new)) entries }
    {
        match &self.channels[sim.0 as usize] {
            Some(channel) => channel.stop(fleet),
            None => {}
        }
    }
}
