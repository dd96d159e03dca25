//! One channel of a crew.
ghost use Rattle.std.specs.Prelude.{◌≡◌, ℕ, ◌≤◌, ◌<◌, List, length, Err, false, IfOk, OnOk, OnErr};
ghost use Rattle.mk_base.specs.Lists.{IsIn};
ghost use Rattle.mk_frame.specs.Frames.{limit};
ghost use Rattle.mk_outside.specs.declared.fleet.LogEntry.{LogEntry};
ghost use Rattle.mk_outside.specs.Counts.{HasRisen};
ghost use Rattle.mk_outside.specs.Logs.{Adds};
ghost use Rattle.mk_run_laws.specs.Channels.{queued};
ghost use Rattle.mk_run_links.specs.inner.OneChannel.{FlushesChannel, PollsChannel, StopsChannel, is_pending};
ghost use Rattle.mk_run_links.specs.Places.{new_channel};

use crate::stopping::stop_frame;
use mk_base::{LinkNo, Mem};
use mk_outside::Fleet;
use mk_session::{Heard, Polled, QueueFault, Session};
use std::alloc::Global;
use std::marker::Model;

// A link's session, whether the link is parked, and the next id of a request on it.
#[derive(Drop)]
pub struct CrewChannel {
    session: Session,
    parked: bool,
    next: u64,
}

impl Model for CrewChannel {
    ghost use Rattle.mk_run_laws.specs.Channels.{Channel};

    ghost Value = { Channel };

    ghost view = { λ a. record {
      link = a.session.link;
      held = a.session.held;
      unsent = a.session.unsent;
      parked = a.parked;
      next = a.next;
    } };
}

fn is_pending(polled: &Polled) -> bool
    ensures { result ≡ is_pending polled.now }
{
    match polled {
        Polled::Pending => true,
        Polled::Ready(_) => false,
    }
}

impl CrewChannel {
    // The channel of a link on which nothing was heard and nothing is to be said.
    pub fn new(alloc: Global, link: LinkNo) -> Result<CrewChannel, Mem>
        ensures { IfOk result (λ channel. channel ≡ new_channel link) }
    {
        Ok(CrewChannel {
            session: Session::new(alloc, link)?,
            parked: false,
            next: 0,
        })
    }

    pub fn link(&self) -> LinkNo
        ensures { result ≡ self.now.link }
    {
        self.session.link()
    }

    pub fn next(&self) -> u64
        ensures { result ≡ self.now.next }
    {
        self.next
    }

    // The link is no longer parked.
    pub fn wake(&mut self)
        ensures { self.new ≡ record {
          link = self.old.link;
          held = self.old.held;
          unsent = self.old.unsent;
          parked = false;
          next = self.old.next;
        } }
    {
        self.parked = false;
    }

    // Queues a payload, after which the link isn't parked and has this next id. `TooLong` has the payload's length in
    // bytes. After a fault nothing has changed.
    pub fn queue(&mut self, payload: &[u8], next: u64) -> Result<(), QueueFault>
        ensures ok { OnOk result (self.new ≡ queued payload.now next self.old) }
        ensures allowed { OnOk result (length payload.now ≤ limit) }
        ensures too_long { (n : ℕ) → result ≡ Err (QueueFault.TooLong n) → n ≡ length payload.now }
        ensures too_long_only { (n : ℕ) → result ≡ Err (QueueFault.TooLong n) → limit < n }
        ensures err { OnErr result (self.new ≡ self.old) }
    {
        self.session.queue(payload)?;
        self.parked = false;
        self.next = next;
        Ok(())
    }

    // Says what is unsent, and gives the next message or why there is none; where neither goes on, the link is parked.
    pub fn poll<F: Fleet>(&mut self, fleet: &mut F) -> Polled
        requires { IsIn self.old.link (F.open_links fleet.old) }
        ensures count { F.faults fleet.old ≤ F.faults fleet.new }
        ensures cause { result ≡ Polled.Ready Heard.Failed
            → HasRisen (F.faults fleet.old) (F.faults fleet.new) }
        ensures same_count { F.started fleet.new ≡ F.started fleet.old }
        ensures same_links { F.open_links fleet.new ≡ F.open_links fleet.old }
        ensures polled { (entries : List LogEntry)
            × Adds entries (F.log fleet.old) (F.log fleet.new)
            × PollsChannel result self.old entries self.new }
    {
        let polled = self.session.poll(fleet);
        self.parked = is_pending(&polled);
        polled
    }

    // Says what is unsent and then these bytes, until all are said or a write takes none or fails.
    pub fn flush<F: Fleet>(&self, fleet: &mut F, last: &[u8])
        requires { IsIn self.now.link (F.open_links fleet.old) }
        ensures count { F.faults fleet.old ≤ F.faults fleet.new }
        ensures same_count { F.started fleet.new ≡ F.started fleet.old }
        ensures same_links { F.open_links fleet.new ≡ F.open_links fleet.old }
        ensures flushed { (entries : List LogEntry)
            × Adds entries (F.log fleet.old) (F.log fleet.new)
            × FlushesChannel self.now last.now
            (HasRisen (F.faults fleet.old) (F.faults fleet.new)) entries }
    {
        self.session.flush(fleet, last);
    }

    // Says what is unsent and then a stop, until all is said or a write takes nothing or fails. It takes no memory.
    pub fn stop<F: Fleet>(&self, fleet: &mut F)
        requires { IsIn self.now.link (F.open_links fleet.old) }
        ensures count { F.faults fleet.old ≤ F.faults fleet.new }
        ensures same_count { F.started fleet.new ≡ F.started fleet.old }
        ensures same_links { F.open_links fleet.new ≡ F.open_links fleet.old }
        ensures stopped { (entries : List LogEntry)
            × Adds entries (F.log fleet.old) (F.log fleet.new)
            × StopsChannel self.now (HasRisen (F.faults fleet.old) (F.faults fleet.new)) entries }
    {
        let frame = stop_frame(self.next);
        self.flush(fleet, frame.as_slice());
    }
}
