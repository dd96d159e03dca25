//! A simulator served over a link.
ghost use Rattle.std.specs.Prelude.{◌≡◌, ◌≤◌, ◌++◌, [], true, List, Some, None, IfOk};
ghost use Rattle.mk_base.specs.Lists.{IsIn};
ghost use Rattle.mk_outside.specs.declared.fleet.LogEntry.{LogEntry};
ghost use Rattle.mk_outside.specs.Counts.{HasRisen};
ghost use Rattle.mk_outside.specs.Logs.{Adds};
ghost use Rattle.mk_plan.specs.declared.Message.{Message};
ghost use Rattle.mk_local.specs.declared.turn.Turn.{Turn};
ghost use Rattle.mk_local.specs.Kinds.{has_kind, kind_named};
ghost use Rattle.mk_local.specs.Registries.{rows_in};
ghost use Rattle.mk_local.specs.Simulators.{Simulator, new_simulator};
ghost use Rattle.mk_session.specs.Answers.{Polls};
ghost use Rattle.mk_simapi.specs.Serving.{Serves};
ghost use Rattle.mk_simapi.specs.inner.Steps.{end_of};
ghost use Rattle.mk_simapi.specs.inner.Standing.{GoesOn, IsAsked, IsServing, QueuesAs, RestsAs, SaysAs};
ghost use Rattle.mk_plan.specs.Messages.{is_message_in_range};

use crate::servant::{Answer, Servant};
use crate::served::Served;
use mk_base::{LinkNo, Mem, Text};
use mk_local::Registry;
use mk_outside::{Fleet, Waited};
use mk_plan::Message;
use mk_session::{Heard, Polled, QueueFault, Session};
use std::alloc::Global;
use std::sync::Wait;

// A simulator, and what is heard and said on its link.
#[derive(Drop)]
pub struct Service {
    servant: Servant,
    session: Session,
}

// Waits until the link may be read or written again; an end where the fleet has failed or there was no memory.
fn rest<F: Fleet>(fleet: &mut F, link: LinkNo) -> Option<Served>
    requires { IsIn link (F.open_links fleet.old) }
    ensures count { F.faults fleet.old ≤ F.faults fleet.new }
    ensures cause { result ≡ Some Served.Failed
        → HasRisen (F.faults fleet.old) (F.faults fleet.new) }
    ensures same_count { F.started fleet.new ≡ F.started fleet.old }
    ensures same_asked { F.asked fleet.new ≡ F.asked fleet.old }
    ensures same_links { F.open_links fleet.new ≡ F.open_links fleet.old }
    ensures rested { (entries : List LogEntry) × Adds entries (F.log fleet.old) (F.log fleet.new)
        × RestsAs result entries }
{
    let mut ready = [false];
    match fleet.wait(&[link], &mut ready) {
        Waited::Marked => None,
        Waited::Failed => Some(Served::Failed),
        Waited::Mem => Some(Served::Mem),
    }
}

impl Service {
    // A simulator of the kind of this name, before anything was heard on the link.
    fn new(alloc: Global, kinds: &Registry, kind: &Text, link: LinkNo) -> Result<Service, Mem>
        requires { has_kind kind.now (rows_in kinds.now) ≡ true }
        ensures named { IfOk result (λ s. kind_named kind.now (rows_in kinds.now)
            ≡ Some s.servant.kind) }
        ensures there { IfOk result (λ s. IsIn s.servant.kind (rows_in kinds.now)) }
        ensures new { IfOk result (λ s. s
            ≡ record {
              servant = new_simulator s.servant.kind;
              session = record { link = link; held = []; unsent = [] };
            }) }
    {
        Ok(Service {
            servant: Servant::new(alloc, kinds, kind)?,
            session: Session::new(alloc, link)?,
        })
    }

    // Answers a message that was heard; an end where it is a stop, or where its reply can't be queued.
    fn react(&mut self, alloc: Global, kinds: &Registry, message: &Message) -> Option<Served>
        requires there { IsIn self.old.servant.kind (rows_in kinds.now) }
        requires range { is_message_in_range message.now ≡ true }
        ensures kind { self.new.servant.kind ≡ self.old.servant.kind }
        ensures link { self.new.session.link ≡ self.old.session.link }
        ensures working { result ≡ Some Served.Failed → ⊥ }
        ensures reacts { (L : Simulator) → (log : List LogEntry) → (before : List Message)
            → IsAsked L self.old.session.link log before message.now self.old.servant
            self.old.session
            → GoesOn L self.old.session.link log result self.new.servant self.new.session }
    {
        match self.servant.answer(alloc, kinds, message) {
            Ok(answer) => self.say(answer),
            Err(_) => Some(Served::Mem),
        }
    }

    // Queues the reply that a message got, if it got one; an end where the message is a stop, or the reply can't be
    // queued.
    fn say(&mut self, answer: Answer) -> Option<Served>
        ensures same { self.new.servant ≡ self.old.servant }
        ensures link { self.new.session.link ≡ self.old.session.link }
        ensures working { result ≡ Some Served.Failed → ⊥ }
        ensures says { SaysAs answer self.old.session result self.new.session }
    {
        match answer {
            Answer::Reply(payload) => self.queue(payload.as_slice()),
            Answer::Nothing => None,
            Answer::Stop => Some(Served::Stopped),
        }
    }

    // Queues the payload of a reply; an end where it is too long, or there is no memory for it.
    fn queue(&mut self, payload: &[u8]) -> Option<Served>
        ensures same { self.new.servant ≡ self.old.servant }
        ensures link { self.new.session.link ≡ self.old.session.link }
        ensures working { result ≡ Some Served.Failed → ⊥ }
        ensures queues { QueuesAs payload.now self.old.session result self.new.session }
    {
        match self.session.queue(payload) {
            Ok(()) => None,
            Err(QueueFault::TooLong(n)) => Some(Served::LongReply(n)),
            Err(QueueFault::Mem) => Some(Served::Mem),
        }
    }

    // Answers what a poll gave; an end where that is no message, or by how it is answered.
    fn take(&mut self, alloc: Global, kinds: &Registry, heard: Heard) -> Option<Served>
        requires there { IsIn self.old.servant.kind (rows_in kinds.now) }
        requires range { (m : Message) → heard ≡ Heard.Message m → is_message_in_range m ≡ true }
        ensures kind { self.new.servant.kind ≡ self.old.servant.kind }
        ensures link { self.new.session.link ≡ self.old.session.link }
        ensures failed { result ≡ Some Served.Failed → heard ≡ Heard.Failed }
        ensures takes { (L : Simulator) → (log : List LogEntry) → (entries : List LogEntry)
            → (before : List Message) → (s : Session)
            → IsServing L s.link log before self.old.servant s
            → Polls (Polled.Ready heard) s entries self.old.session
            → GoesOn L s.link (log ++ entries) result self.new.servant self.new.session }
    {
        match heard {
            Heard::Message(message) => self.react(alloc, kinds, &message),
            Heard::Garbled(test) => Some(Served::Garbled(test)),
            Heard::TooLong(n) => Some(Served::TooLong(n)),
            Heard::Closed => Some(Served::Closed),
            Heard::Failed => Some(Served::Failed),
            Heard::Mem => Some(Served::Mem),
        }
    }

    // Hears the next message and answers it, or waits where none has come.
    fn round<F: Fleet>(&mut self, alloc: Global, kinds: &Registry, fleet: &mut F) -> Option<Served>
        requires there { IsIn self.old.servant.kind (rows_in kinds.now) }
        requires open { IsIn self.old.session.link (F.open_links fleet.old) }
        ensures count { F.faults fleet.old ≤ F.faults fleet.new }
        ensures cause { result ≡ Some Served.Failed
            → HasRisen (F.faults fleet.old) (F.faults fleet.new) }
        ensures same_count { F.started fleet.new ≡ F.started fleet.old }
        ensures same_asked { F.asked fleet.new ≡ F.asked fleet.old }
        ensures same_links { F.open_links fleet.new ≡ F.open_links fleet.old }
        ensures kind { self.new.servant.kind ≡ self.old.servant.kind }
        ensures link { self.new.session.link ≡ self.old.session.link }
        ensures went { (entries : List LogEntry) × Adds entries (F.log fleet.old) (F.log fleet.new)
            × ((L : Simulator) → (log : List LogEntry) → (before : List Message)
            → IsServing L self.old.session.link log before self.old.servant self.old.session
            → GoesOn L self.old.session.link (log
            ++ entries) result self.new.servant self.new.session) }
    {
        match self.session.poll(fleet) {
            Polled::Pending => rest(fleet, self.session.link()),
            Polled::Ready(heard) => self.take(alloc, kinds, heard),
        }
    }
}

// What came of a round.
#[derive(Clone, Copy)]
pub enum Step {
    Again,
    Ended(Served),
}

impl Service {
    // One round.
    fn step<F: Fleet>(&mut self, alloc: Global, kinds: &Registry, fleet: &mut F) -> Step
        requires there { IsIn self.old.servant.kind (rows_in kinds.now) }
        requires open { IsIn self.old.session.link (F.open_links fleet.old) }
        ensures count { F.faults fleet.old ≤ F.faults fleet.new }
        ensures cause { result ≡ Step.Ended Served.Failed
            → HasRisen (F.faults fleet.old) (F.faults fleet.new) }
        ensures same_count { F.started fleet.new ≡ F.started fleet.old }
        ensures same_asked { F.asked fleet.new ≡ F.asked fleet.old }
        ensures same_links { F.open_links fleet.new ≡ F.open_links fleet.old }
        ensures kind { self.new.servant.kind ≡ self.old.servant.kind }
        ensures link { self.new.session.link ≡ self.old.session.link }
        ensures went { (entries : List LogEntry) × Adds entries (F.log fleet.old) (F.log fleet.new)
            × ((L : Simulator) → (log : List LogEntry) → (before : List Message)
            → IsServing L self.old.session.link log before self.old.servant self.old.session
            → GoesOn L self.old.session.link (log
            ++ entries) (end_of result) self.new.servant self.new.session) }
    {
        match self.round(alloc, kinds, fleet) {
            Some(end) => Step::Ended(end),
            None => Step::Again,
        }
    }
}

/// Serves a simulator of the kind of this name on a link: answers each request in order, until a stop. A request that
/// asks for nothing that is known gets the failure reply `unknown request`, and replies are ignored. At each end but
/// `Failed` and `Mem` all replies before it were said, or the last write took nothing. `Closed` comes only where the
/// last read found the link's end, `Failed` only where the fleet's count of faults rose, and `LongReply` only where a
/// reply is longer than a frame may be.
pub fn serve<F: Fleet, R: Wait>(
    rt: &R,
    alloc: Global,
    kinds: &Registry,
    kind: &Text,
    fleet: &mut F,
    link: LinkNo,
) -> Served
    requires there { has_kind kind.now (rows_in kinds.now) ≡ true }
    requires open { IsIn link (F.open_links fleet.old) }
    ensures count { F.faults fleet.old ≤ F.faults fleet.new }
    ensures cause { result ≡ Served.Failed → HasRisen (F.faults fleet.old) (F.faults fleet.new) }
    ensures same_count { F.started fleet.new ≡ F.started fleet.old }
    ensures same_asked { F.asked fleet.new ≡ F.asked fleet.old }
    ensures same_links { F.open_links fleet.new ≡ F.open_links fleet.old }
    ensures served { (entries : List LogEntry) × Adds entries (F.log fleet.old) (F.log fleet.new)
        × ((row : Turn) → kind_named kind.now (rows_in kinds.now) ≡ Some row
        → Serves (new_simulator row) link result entries) }
{
    let Ok(mut service) = Service::new(alloc, kinds, kind, link) else {
        return Served::Mem;
    };
    for _ in rt.forever() {
        match service.step(alloc, kinds, fleet) {
            Step::Ended(end) => return end,
            Step::Again => {}
        }
    }
    unreachable!()
}
