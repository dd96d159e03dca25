//! A simulator that answers the messages that it hears.
ghost use Rattle.std.specs.Prelude.{◌≡◌, true, false, Some, IfOk, IfSome, OnOk};
ghost use Rattle.std.specs.List.{list_all};
ghost use Rattle.mk_base.specs.Lists.{IsIn};
ghost use Rattle.mk_base.specs.Trees as trees;
ghost use Rattle.mk_local.specs.Kinds.{has_kind, kind_named};
ghost use Rattle.mk_local.specs.Registries.{rows_in};
ghost use Rattle.mk_local.specs.Calls.{after_call};
ghost use Rattle.mk_local.specs.Replies.{IsItemReplied};
ghost use Rattle.mk_local.specs.Simulators.{new_simulator};
ghost use Rattle.mk_simapi.specs.inner.Answers.{AnswersAs, CallsAs, IsItemPayload};
ghost use Rattle.mk_simapi.specs.Replies.{after_asked, after_message, is_stop_call, unknown};
ghost use Rattle.mk_plan.specs.Messages.{is_message_in_range};

use crate::requests::{call_in, item_in};
use mk_base::{Json, List, Mem, Text};
use mk_local::{LocalSim, Registry};
use mk_message::write;
use mk_plan::{Call, Item, Message};
use std::alloc::Global;
use std::marker::Model;

// What a message is answered: the payload of a reply, nothing, or that the message is a stop.
#[derive(Drop)]
pub enum Answer {
    Reply(Vec<u8>),
    Nothing,
    Stop,
}

// A simulator of one of the kinds.
#[derive(Drop)]
pub struct Servant {
    sim: LocalSim,
}

impl Model for Servant {
    ghost use Rattle.mk_local.specs.Simulators.{Simulator};
    ghost use Rattle.mk_run_local.specs.inner.Standing.{IsFit};

    ghost Value = { Simulator };

    ghost view = { λ a. a.sim };

    ghost invariant = { λ a. IsFit a.sim };
}

impl Servant {
    // A simulator of the kind of this name, before any request.
    pub fn new(alloc: Global, kinds: &Registry, kind: &Text) -> Result<Servant, Mem>
        requires { has_kind kind.now (rows_in kinds.now) ≡ true }
        ensures named { IfOk result (λ s. kind_named kind.now (rows_in kinds.now) ≡ Some s.kind) }
        ensures there { IfOk result (λ s. IsIn s.kind (rows_in kinds.now)) }
        ensures new { IfOk result (λ s. s ≡ new_simulator s.kind) }
    {
        Ok(Servant {
            sim: LocalSim::new(alloc, kinds, kind)?,
        })
    }

    // Answers a message. The kinds are those that the simulator was made of.
    pub fn answer(
        &mut self,
        alloc: Global,
        kinds: &Registry,
        message: &Message,
    ) -> Result<Answer, Mem>
        requires there { IsIn self.old.kind (rows_in kinds.now) }
        requires range { is_message_in_range message.now ≡ true }
        ensures answer { IfOk result (λ a. AnswersAs a self.old message.now) }
        ensures after { OnOk result (self.new ≡ after_message self.old message.now) }
        ensures kind { self.new.kind ≡ self.old.kind }
    {
        match message {
            Message::Ask {
                id,
                name,
                args,
                named,
            } => self.request(alloc, kinds, *id, name, args, named),
            Message::Success { id: _, content: _ } => Ok(Answer::Nothing),
            Message::Failure { id: _, text: _ } => Ok(Answer::Nothing),
        }
    }

    // Answers a request.
    fn request(
        &mut self,
        alloc: Global,
        kinds: &Registry,
        id: u64,
        name: &Text,
        args: &List<Json>,
        named: &Json,
    ) -> Result<Answer, Mem>
        requires there { IsIn self.old.kind (rows_in kinds.now) }
        requires range { list_all trees.is_in_range args.now ≡ true }
        ensures answer { IfOk result
            (λ a. AnswersAs a self.old (Message.Ask id name.now args.now named.now)) }
        ensures after { OnOk result (self.new
            ≡ after_message self.old (Message.Ask id name.now args.now named.now)) }
        ensures kind { self.new.kind ≡ self.old.kind }
    {
        match call_in(alloc, name, args, named)? {
            Some(call) => self.call(alloc, kinds, id, &call),
            None => {
                let item = item_in(alloc, name, args, named)?;
                Ok(Answer::Reply(self.item(alloc, kinds, id, &item)?))
            }
        }
    }

    // Answers a call before the run, or a stop.
    fn call(&mut self, alloc: Global, kinds: &Registry, id: u64, call: &Call) -> Result<Answer, Mem>
        requires { IsIn self.old.kind (rows_in kinds.now) }
        ensures answer { IfOk result (λ a. CallsAs a self.old id call.now) }
        ensures after { OnOk result (self.new ≡ after_call self.old call.now) }
        ensures kind { self.new.kind ≡ self.old.kind }
    {
        if is_stop_call(call) {
            return Ok(Answer::Stop);
        }
        let reply = self.sim.answer_call(alloc, kinds, call, id)?;
        Ok(Answer::Reply(write(alloc, &reply)?))
    }

    // The payload of the reply to a request that asks for an item of the run, or for nothing that is known.
    fn item(
        &mut self,
        alloc: Global,
        kinds: &Registry,
        id: u64,
        item: &Option<Item>,
    ) -> Result<Vec<u8>, Mem>
        requires there { IsIn self.old.kind (rows_in kinds.now) }
        requires replied { IfSome item.now (λ i. IsItemReplied i) }
        ensures payload { IfOk result (λ p. IsItemPayload p.items self.old id item.now) }
        ensures after { OnOk result (self.new ≡ after_asked self.old item.now) }
        ensures kind { self.new.kind ≡ self.old.kind }
    {
        let reply = match item {
            Some(item) => self.sim.answer_item(alloc, kinds, item, id)?,
            None => unknown(alloc, id)?,
        };
        write(alloc, &reply)
    }
}

// The reply to a request that asks for nothing that is known.
fn unknown(alloc: Global, id: u64) -> Result<Message, Mem>
    ensures { IfOk result (λ m. m ≡ unknown id) }
{
    Ok(Message::Failure {
        id,
        text: Text::of(alloc, "unknown request")?,
    })
}

// Whether the call is a stop.
fn is_stop_call(call: &Call) -> bool
    ensures { result ≡ is_stop_call call.now }
{
    match call {
        Call::Init { sim: _, params: _ } => false,
        Call::Create {
            num: _,
            model: _,
            params: _,
        } => false,
        Call::SetupDone => false,
        Call::Stop => true,
    }
}
