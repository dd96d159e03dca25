//! The plan that a scenario makes with what its simulators said.
ghost use Rattle.std.specs.Prelude.{◌≡◌, ◌≤◌, Ok, length, IfOk, IfErr};
ghost use Rattle.mk_plan.specs.Plans.{HasInitialValues, HasOneConnectionEach, IsValidPlan};
ghost use Rattle.mk_entities.specs.Sound.{AreSound};
ghost use Rattle.mk_entities.specs.Tied.{AreFirst};
ghost use Rattle.mk_scenario.specs.Wellformed.{IsWellformed};
ghost use Rattle.mk_base.specs.Lists.{Each};
ghost use Rattle.mk_connect.specs.ByPlace.{by_place};
ghost use Rattle.mk_connect.specs.Complete.{IsComplete};
ghost use Rattle.mk_connect_pairs.specs.Connections.{conns_made};
ghost use Rattle.mk_connect_pairs.specs.Faults.{IsFaultOf};
ghost use Rattle.mk_connect.specs.Made.{plan_entity, plan_made, plan_of};
ghost use Rattle.mk_connect_pairs.specs.Usable.{IsUsable};
ghost use Rattle.mk_connect.specs.Agreeing.{SourcesAgree, TargetsAgree};
ghost use Rattle.mk_connect.specs.Related.{pairs_of};
ghost use Rattle.mk_base.specs.Limits.{most_entities};

use crate::asyncs::asyncs_of;
use crate::parts::{plan_entities, plan_models, plan_sims};
use crate::relations::related_of;
use mk_base::{List, Mem};
use mk_connect_pairs::{
    ConnectFault, Models, Study, conns_made, members_of, models_of, numbers_of,
};
use mk_entities::Entities;
use mk_meta::Meta;
use mk_plan::{Conn, Plan, PlanEntity};
use mk_scenario::{Block, Scenario};
use std::alloc::Global;

/// The plan of a scenario, by the ranks of its edges, its simulators' metadata, the entities that they created and how
/// many setup requests each of them got; or the first test that its connections fail; or want of memory.
///
/// Blocks are gone through in order, in each block the entities that it pairs, for each two of them its pairs of
/// attributes. A connection keeps its value if its source is time-based, or hybrid and the attribute isn't among those
/// that aren't persistent; it triggers if its target is event-based, or hybrid and the attribute is among those that
/// trigger (mosaik 3, simulator types and low-level API).
pub fn plan(
    alloc: Global,
    scenario: &Scenario,
    ranks: &List<u32>,
    metas: &List<Meta>,
    entities: &Entities,
    first_ids: &[u64],
) -> Result<Plan, ConnectFault>
    requires { IsWellformed scenario.now }

    // No two connections lead the same way; initial values stand where they have to, and none on a plain connection;
    // connections of one source's attribute agree, and those to one target's.
    ensures apart { IfOk result (λ P. HasOneConnectionEach P) }
    ensures initials { IfOk result (λ P. HasInitialValues P) }
    ensures sources { IfOk result (λ P. SourcesAgree P) }
    ensures targets { IfOk result (λ P. TargetsAgree P) }

    // The plan is valid, once all that it is made of is there.
    ensures valid { IfOk result
        (λ P. IsComplete scenario.now ranks.now metas.now entities.now first_ids.now
        → IsValidPlan P) }

    // The plan is the one that the definition makes, and each fault is the first test that fails.
    ensures made { IfOk result
        (λ P. plan_made scenario.now ranks.now metas.now entities.now first_ids.now ≡ Ok P) }
    ensures refused { IfErr result
        (λ e. IsFaultOf (plan_made scenario.now ranks.now metas.now entities.now first_ids.now) e) }
{
    let models = models_of(alloc, metas)?;
    match connected_parts(alloc, scenario, &models, entities) {
        Ok(parts) => {
            let plan = plan_with(alloc, scenario, ranks, metas, first_ids, models, parts)?;
            Ok(plan)
        }
        Err(fault) => Err(fault),
    }
}

// The entities and the connections of a plan.
#[derive(Drop)]
struct Parts {
    entities: List<PlanEntity>,
    conns: List<Conn>,
}

fn connected_parts(
    alloc: Global,
    scenario: &Scenario,
    models: &Models,
    entities: &Entities,
) -> Result<Parts, ConnectFault>
    requires { IsWellformed scenario.now }
    ensures made { IfOk result
        (λ parts. conns_made scenario.now.sims models.now entities.now scenario.now.blocks
        ≡ Ok parts.conns) }
    ensures entities { IfOk result (λ parts. parts.entities
        ≡ by_place (plan_entity models.now (length entities.now)
        (pairs_of entities.now scenario.now.blocks)) 0 entities.now) }
    ensures refused { IfErr result
        (λ e. IsFaultOf (conns_made scenario.now.sims models.now entities.now scenario.now.blocks)
        e) }

    // What is sure of all entities.
    ensures few { length entities.now ≤ most_entities }
    ensures distinct { AreFirst entities.now }
    ensures sound { AreSound entities.now }
{
    let all = entities.as_slice();
    let numbers = numbers_of(alloc, models, all)?;
    let members = members_of(alloc, scenario.groups.len(), all)?;
    let study = Study {
        sims: scenario.sims.as_slice(),
        models,
        entities,
        numbers: &numbers,
        members: members.as_slice(),
    };
    let blocks = scenario.blocks.as_slice();
    match conns_made(alloc, &study, blocks) {
        Ok(made) => {
            let entities = related_entities(alloc, &study, blocks)?;
            Ok(Parts {
                entities,
                conns: made.into_list(),
            })
        }
        Err(fault) => Err(fault),
    }
}

fn related_entities(alloc: Global, study: &Study, blocks: &[Block]) -> Result<List<PlanEntity>, Mem>
    requires { Each (IsUsable (length study.now.members.now)) blocks.now }
    ensures { IfOk result (λ entities. entities
        ≡ by_place (plan_entity study.now.models.now (length study.now.entities.now)
        (pairs_of study.now.entities.now blocks.now)) 0 study.now.entities.now) }
{
    let relations = related_of(alloc, study, blocks)?;
    plan_entities(alloc, study, blocks, relations.as_slice())
}

fn plan_with(
    alloc: Global,
    scenario: &Scenario,
    ranks: &List<u32>,
    metas: &List<Meta>,
    first_ids: &[u64],
    models: Models,
    parts: Parts,
) -> Result<Plan, Mem>
    requires { IsWellformed scenario.now }
    ensures { IfOk result (λ P. P
        ≡ plan_of scenario.now ranks.now metas.now first_ids.now models parts.entities
        parts.conns) }
{
    let sims = plan_sims(alloc, &scenario.sims, metas, ranks, first_ids)?;
    let models = plan_models(alloc, models)?;
    let asyncs = asyncs_of(alloc, &scenario.groups, scenario.blocks.as_slice())?;
    Ok(Plan {
        until: scenario.until,
        loops: scenario.loops,
        entries: scenario.entries,
        sims,
        models,
        entities: parts.entities,
        conns: parts.conns,
        asyncs,
    })
}
