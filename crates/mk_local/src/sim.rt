//! A simulator within the program, and its replies.
ghost use Rattle.std.specs.Prelude.{◌≡◌, true, Some, IfOk, OnOk, OnErr};
ghost use Rattle.mk_base.specs.Lists.{IsIn};
ghost use Rattle.mk_local.specs.Calls.{IsCallReplied, after_call, call_reply};
ghost use Rattle.mk_local.specs.Kinds.{has_kind, kind_named};
ghost use Rattle.mk_local.specs.Registries.{rows_in};
ghost use Rattle.mk_local.specs.Replies.{IsItemReplied, after_item, item_reply};
ghost use Rattle.mk_local.specs.Rows.{IsStepOf};
ghost use Rattle.mk_local.specs.Simulators.{new_simulator};

use crate::calls::{created, init_content, message, step_after};
use crate::data::data_content;
use crate::entity::Entity;
use crate::names::least_step;
use crate::registry::Registry;
use crate::steps::{Pace, stepped};
use crate::turn::Turn;
use mk_base::{Json, List, Mem, Text};
use mk_plan::{Call, Item, Message};
use std::alloc::Global;
use std::marker::Model;

/// A simulator within the program: its kind, its step, and its entities, each with its setting, its state, and the
/// output and output time of its last Step.
#[derive(Drop)]
pub struct LocalSim {
    turn: Turn,
    step: i64,
    entities: List<Entity>,
}

impl Model for LocalSim {
    ghost use Rattle.mk_local.specs.Rows.{IsStepOf};
    ghost use Rattle.mk_local.specs.Simulators.{Simulator};

    ghost Value = { Simulator };

    ghost view = { λ a. record { kind = a.turn; step = a.step; entities = a.entities } };

    ghost invariant = { λ a. IsStepOf a.turn a.step };
}

impl LocalSim {
    /// A simulator of the kind of this name, which is one of these kinds, before any request.
    pub fn new(alloc: Global, kinds: &Registry, name: &Text) -> Result<LocalSim, Mem>
        requires { has_kind name.now (rows_in kinds.now) ≡ true }
        ensures named { IfOk result (λ s. kind_named name.now (rows_in kinds.now) ≡ Some s.kind) }
        ensures there { IfOk result (λ s. IsIn s.kind (rows_in kinds.now)) }
        ensures new { IfOk result (λ s. s ≡ new_simulator s.kind) }
        ensures step { IfOk result (λ s. IsStepOf s.kind s.step) }
    {
        match kinds.named(name.as_str()) {
            Some(turn) => Ok(LocalSim {
                turn,
                step: least_step(turn),
                entities: List::new(alloc),
            }),
            None => unreachable!(),
        }
    }

    /// The reply to a request before the run, which isn't `stop`: a failure where the request is refused, which changes
    /// nothing. At `Mem` nothing has changed.
    pub fn answer_call(
        &mut self,
        alloc: Global,
        _kinds: &Registry,
        call: &Call,
        id: u64,
    ) -> Result<Message, Mem>
        requires { IsCallReplied call.now }
        ensures reply { IfOk result (λ m. call_reply self.old id call.now ≡ Some m) }
        ensures after { OnOk result (self.new ≡ after_call self.old call.now) }
        ensures kind { self.new.kind ≡ self.old.kind }
        ensures step { IsStepOf self.new.kind self.new.step }
        ensures err { OnErr result (self.new ≡ self.old) }
    {
        match call {
            Call::Init { sim: _, params } => {
                let content = init_content(alloc, self.turn, params)?;
                self.step = step_after(&content, self.turn, self.step, params);
                Ok(message(id, content))
            }
            Call::Create { num, model, params } => {
                let content = created(alloc, self.turn, &mut self.entities, *num, model, params)?;
                Ok(message(id, content))
            }
            Call::SetupDone => Ok(message(id, Ok(Json::Null))),
            Call::Stop => unreachable!(),
        }
    }

    /// The reply to an item of the run, a Step at a time from 0 to 1,000,000,000 or a GetData. The simulator's kind is
    /// one of these kinds. At `Mem` nothing has changed.
    pub fn answer_item(
        &mut self,
        alloc: Global,
        kinds: &Registry,
        item: &Item,
        id: u64,
    ) -> Result<Message, Mem>
        requires there { IsIn self.old.kind (rows_in kinds.now) }
        requires replied { IsItemReplied item.now }
        ensures reply { IfOk result (λ m. item_reply self.old id item.now ≡ Some m) }
        ensures after { OnOk result (self.new ≡ after_item self.old item.now) }
        ensures kind { self.new.kind ≡ self.old.kind }
        ensures step { IsStepOf self.new.kind self.new.step }
        ensures err { OnErr result (self.new ≡ self.old) }
    {
        match item {
            Item::Step {
                at,
                inputs,
                max_advance: _,
            } => {
                let pace = Pace {
                    step: self.step,
                    time: at.time,
                };
                let content = stepped(alloc, kinds, self.turn, &pace, inputs, &mut self.entities)?;
                Ok(Message::Success { id, content })
            }
            Item::GetData { wanted } => {
                let content = data_content(alloc, self.turn, &self.entities, wanted)?;
                Ok(Message::Success { id, content })
            }
            Item::Answer { id: _, content: _ } => unreachable!(),
            Item::Refuse { id: _, reason: _ } => unreachable!(),
        }
    }
}
