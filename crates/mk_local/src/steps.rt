//! The reply to a Step.
ghost use Rattle.std.specs.Prelude.{◌≡◌, IfOk, OnErr, OnOk, filter_map};
ghost use Rattle.mk_base.specs.Lists.{IsIn};
ghost use Rattle.mk_local.specs.Registries.{rows_in};
ghost use Rattle.mk_local.specs.Rows.{IsStepOf, IsStepTime, row};
ghost use Rattle.mk_local.specs.Steps.{after_step, least, number_or_null, own_next, step_content, turned, turns};
ghost use Rattle.mk_local.specs.inner.Steps.{earlier_next};

use crate::entity::Entity;
use crate::inputs::{Taken, gathered};
use crate::kind::Kind;
use crate::names::type_of;
use crate::registry::Registry;
use crate::turn::{EntityStep, EntityTurn, Turn};
use mk_base::{Json, List, Mem, SimKind};
use mk_plan::Input;
use std::alloc::Global;

// What the turns of a Step leave: each entity after its turn, and the least next time that one gives.
#[derive(Drop)]
pub struct Turned {
    pub entities: List<Entity>,
    pub least: Option<i64>,
}

// The simulator's step, and the time of a Step.
#[derive(Clone, Copy)]
pub struct Pace {
    pub step: i64,
    pub time: i64,
}

// Takes the turns of all entities in a Step; the content of its reply.
pub fn stepped(
    alloc: Global,
    kinds: &Registry,
    turn: Turn,
    pace: &Pace,
    inputs: &List<Input>,
    entities: &mut List<Entity>,
) -> Result<Json, Mem>
    requires there { IsIn turn (rows_in kinds.now) }
    requires step { IsStepOf turn pace.now.step }
    requires time { IsStepTime pace.now.time }
    ensures content { IfOk result (λ t. t
        ≡ step_content (record {
          kind = turn;
          step = pace.now.step;
          entities = entities.old;
        }) pace.now.time inputs.now) }
    ensures after { OnOk result (entities.new
        ≡ (after_step (record {
          kind = turn;
          step = pace.now.step;
          entities = entities.old;
        }) pace.now.time inputs.now).entities) }
    ensures err { OnErr result (entities.new ≡ entities.old) }
{
    let Some(kind) = kinds.of(turn) else {
        unreachable!()
    };
    let turned = take_turns(alloc, kind, pace, inputs, entities)?;
    let content = step_content(turn, pace, entities, turned.least);
    *entities = turned.entities;
    Ok(content)
}

// The turns of all entities in a Step.
fn take_turns(
    alloc: Global,
    kind: &Kind,
    pace: &Pace,
    inputs: &List<Input>,
    entities: &List<Entity>,
) -> Result<Turned, Mem>
    requires step { IsStepOf kind.now.turn pace.now.step }
    requires time { IsStepTime pace.now.time }
    ensures entities { IfOk result (λ t. t.entities
        ≡ (after_step (record {
          kind = kind.now.turn;
          step = pace.now.step;
          entities = entities.now;
        }) pace.now.time inputs.now).entities) }
    ensures least { IfOk result (λ t. t.least
        ≡ least (filter_map (λ t. t.next)
        (turns (record {
          kind = kind.now.turn;
          step = pace.now.step;
          entities = entities.now;
        }) pace.now.time inputs.now))) }
{
    let mut found = Turned {
        entities: List::with_room(alloc, entities.len())?,
        least: None,
    };
    let taken = gathered(alloc, kind.turn, entities.len(), inputs)?;
    for k in 0..entities.len() {
        let entity = entities.at(k);
        let turn = entity_turn(kind, pace, taken.at(k), entity);
        found.entities.push(after_turn(entity, turn))?;
        found.least = earlier_next(found.least, turn);
    }
    Ok(found)
}

// The content of the reply to a Step, where the entities give this least next time.
fn step_content(turn: Turn, pace: &Pace, entities: &List<Entity>, least: Option<i64>) -> Json
    ensures { result ≡ number_or_null
        (own_next (record {
          kind = turn;
          step = pace.now.step;
          entities = entities.now;
        }) pace.now.time least) }
{
    if entities.is_empty() && type_of(turn) == SimKind::TimeBased {
        Json::Whole(pace.time.saturating_add(pace.step) as i128)
    } else {
        number_or_null(least)
    }
}

fn number_or_null(n: Option<i64>) -> Json
    ensures { result ≡ number_or_null n }
{
    match n {
        Some(n) => Json::Whole(n as i128),
        None => Json::Null,
    }
}

// The turn of an entity that takes this.
fn entity_turn(kind: &Kind, pace: &Pace, taken: &Taken, entity: &Entity) -> EntityTurn
    requires step { IsStepOf kind.now.turn pace.now.step }
    requires time { IsStepTime pace.now.time }
    ensures { result ≡ row kind.now.turn
        (record {
          step = pace.now.step;
          setting = entity.now.setting;
          state = entity.now.state;
          time = pace.now.time;
          seen = taken.now.seen;
          sum = taken.now.sum;
        }) }
{
    kind.take(EntityStep {
        step: pace.step,
        setting: entity.setting,
        state: entity.state,
        time: pace.time,
        seen: taken.seen,
        sum: taken.sum,
    })
}

fn after_turn(entity: &Entity, turn: EntityTurn) -> Entity
    ensures { result ≡ turned entity.now turn }
{
    Entity {
        setting: entity.setting,
        state: turn.state,
        out: turn.out,
        at: turn.at,
    }
}

// The lesser of a time and the turn's next one, where these are there.
fn earlier_next(least: Option<i64>, turn: EntityTurn) -> Option<i64>
    ensures { result ≡ earlier_next least turn.next }
{
    match turn.next {
        Some(next) => match least {
            Some(time) => Some(if next < time { next } else { time }),
            None => Some(next),
        },
        None => least,
    }
}
