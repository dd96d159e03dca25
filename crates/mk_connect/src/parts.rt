//! The parts of a plan beside its connections.
ghost use Rattle.std.specs.Prelude.{◌≡◌, ◌<◌, [], Some, length, map, option_and_then, slice_get, unwrap_or, IfOk};
ghost use Rattle.std.specs.List.{range_with_len};
ghost use Rattle.mk_connect.specs.ByPlace.{by_place};
ghost use Rattle.mk_connect.specs.Made.{kind_at, number_at, plan_entity, plan_sim};
ghost use Rattle.mk_connect_pairs.specs.Models.{plan_model};
ghost use Rattle.mk_connect.specs.Related.{pairs_of, related};

use crate::relations::Numbers;
use mk_base::{List, Mem, SimKind};
use mk_connect_pairs::{Models, SimModel, Study, number_at};
use mk_entities::EntityInfo;
use mk_meta::Meta;
use mk_plan::{PlanEntity, PlanModel, PlanSim};
use mk_scenario::{Block, SimPart};
use std::alloc::Global;

// The simulators, each with its type, its rank and the number of its setup requests.
pub fn plan_sims(
    alloc: Global,
    parts: &List<SimPart>,
    metas: &List<Meta>,
    ranks: &List<u32>,
    first_ids: &[u64],
) -> Result<List<PlanSim>, Mem>
    ensures { IfOk result (λ sims. sims
        ≡ by_place (plan_sim metas.now ranks.now first_ids.now) 0 parts.now) }
{
    let mut sims = List::new(alloc);
    for (s, part) in parts.as_slice().iter().enumerate() {
        sims.push(plan_sim(alloc, metas, ranks, first_ids, s, part)?)?;
    }
    Ok(sims)
}

fn plan_sim(
    alloc: Global,
    metas: &List<Meta>,
    ranks: &List<u32>,
    first_ids: &[u64],
    s: usize,
    part: &SimPart,
) -> Result<PlanSim, Mem>
    ensures { IfOk result (λ sim. sim ≡ plan_sim metas.now ranks.now first_ids.now s part.now) }
{
    let id = part.id.copy()?;
    let initial = copied(alloc, &part.initial)?;
    Ok(PlanSim {
        id,
        kind: kind_at(metas, s),
        first_id: first_id_at(first_ids, s),
        rank: rank_at(ranks, s),
        initial,
    })
}

fn copied(alloc: Global, times: &List<i64>) -> Result<List<i64>, Mem>
    ensures { IfOk result (λ copy. copy ≡ times.now) }
{
    Ok(List::from_vec(times.as_slice().iter().copied().collect(alloc)?))
}

// The type of a simulator, time-based where its metadata isn't there: a plan is made of whatever was said.
fn kind_at(metas: &List<Meta>, s: usize) -> SimKind
    ensures { result ≡ kind_at metas.now s }
{
    match metas.get(s) {
        Some(meta) => meta.kind,
        None => SimKind::TimeBased,
    }
}

// The first id of a simulator, 0 where none is told: a plan is made of whatever ids there are.
fn first_id_at(first_ids: &[u64], s: usize) -> u64
    ensures { result ≡ number_at first_ids.now s }
{
    match first_ids.get(s) {
        Some(id) => *id,
        None => 0,
    }
}

// The rank of a simulator, 0 where none is told: a plan is made of whatever ranks there are.
fn rank_at(ranks: &List<u32>, s: usize) -> u32
    ensures { result ≡ number_at ranks.now s }
{
    match ranks.get(s) {
        Some(rank) => *rank,
        None => 0,
    }
}

// The models, as the plan has them.
pub fn plan_models(alloc: Global, models: Models) -> Result<List<PlanModel>, Mem>
    ensures { IfOk result (λ made. made ≡ map plan_model models) }
{
    let kept = models.into_list().into_vec();
    Ok(List::from_vec(kept.into_iter().map(plan_model).collect(alloc)?))
}

fn plan_model(model: SimModel) -> PlanModel
    ensures { result ≡ plan_model model }
{
    PlanModel {
        sim: model.sim,
        name: model.name,
        attrs: model.attrs.into_list(),
        any_inputs: model.any_inputs,
    }
}

// The entities, each with its model and those that it is related to.
pub fn plan_entities(
    alloc: Global,
    study: &Study,
    blocks: &[Block],
    relations: &[Numbers],
) -> Result<List<PlanEntity>, Mem>
    requires { relations.now
        ≡ map (related (length study.now.entities.now) (pairs_of study.now.entities.now blocks.now))
        (range_with_len 0 (length study.now.entities.now)) }
    ensures { IfOk result (λ entities. entities
        ≡ by_place (plan_entity study.now.models.now (length study.now.entities.now)
        (pairs_of study.now.entities.now blocks.now)) 0 study.now.entities.now) }
{
    let mut entities = List::new(alloc);
    for (i, entity) in study.entities.as_slice().iter().enumerate() {
        entities.push(plan_entity(alloc, study, blocks, relations, i, entity)?)?;
    }
    Ok(entities)
}

fn plan_entity(
    alloc: Global,
    study: &Study,
    blocks: &[Block],
    relations: &[Numbers],
    i: usize,
    entity: &EntityInfo,
) -> Result<PlanEntity, Mem>
    requires related { relations.now
        ≡ map (related (length study.now.entities.now) (pairs_of study.now.entities.now blocks.now))
        (range_with_len 0 (length study.now.entities.now)) }
    requires there { slice_get study.now.entities.now i ≡ Some entity.now }
    ensures { IfOk result (λ made. made
        ≡ plan_entity study.now.models.now (length study.now.entities.now)
        (pairs_of study.now.entities.now blocks.now) i entity.now) }
{
    let eid = entity.eid.copy()?;
    let related = related_at(alloc, relations, i)?;
    Ok(PlanEntity {
        model: model_at(study.numbers, i),
        eid,
        related,
    })
}

// The number of an entity's model, 0 where it has none.
fn model_at(numbers: &List<Option<u32>>, i: usize) -> u32
    ensures { result ≡ unwrap_or (option_and_then (λ n. n) (slice_get numbers.now i)) 0 }
{
    number_at(numbers, i).unwrap_or(0)
}

fn related_at(alloc: Global, relations: &[Numbers], i: usize) -> Result<List<u32>, Mem>
    requires { i < length relations.now }
    ensures { IfOk result (λ list. list ≡ unwrap_or (slice_get relations.now i) []) }
{
    match relations.get(i) {
        Some(numbers) => numbers.listed(alloc),
        None => unreachable!(),
    }
}
