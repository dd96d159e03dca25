//! Whether what a plan refers to is there.
ghost use Rattle.std.specs.Prelude.{◌≡◌, ◌<◌, nat_lt, length};
ghost use Rattle.std.specs.List.{list_all};
ghost use Rattle.mk_plan_check.specs.Tests.{entity_refers, conn_refers, pair_refers, refers_inside};

use mk_base::SimNo;
use mk_plan::{AsyncPair, Conn, Plan, PlanEntity};

fn is_sim(plan: &Plan, sim: SimNo) -> bool
    ensures { result ≡ nat_lt sim.0 (length plan.now.sims) }
{
    (sim.0 as usize) < plan.sims.len()
}

fn is_model(plan: &Plan, model: u32) -> bool
    ensures { result ≡ nat_lt model (length plan.now.models) }
{
    (model as usize) < plan.models.len()
}

fn is_entity(plan: &Plan, entity: u32) -> bool
    ensures { result ≡ nat_lt entity (length plan.now.entities) }
{
    (entity as usize) < plan.entities.len()
}

fn are_entities(plan: &Plan, related: &[u32]) -> bool
    ensures { result ≡ list_all (λ r. nat_lt r (length plan.now.entities)) related.now }
{
    related.iter().all(|entity| is_entity(plan, *entity))
}

fn entity_refers(plan: &Plan, entity: &PlanEntity) -> bool
    ensures { result ≡ entity_refers plan.now entity.now }
{
    is_model(plan, entity.model) && are_entities(plan, entity.related.as_slice())
}

fn conn_refers(plan: &Plan, conn: &Conn) -> bool
    ensures { result ≡ conn_refers plan.now conn.now }
{
    is_entity(plan, conn.from) && is_entity(plan, conn.to)
}

fn pair_refers(plan: &Plan, pair: &AsyncPair) -> bool
    ensures { result ≡ pair_refers plan.now pair.now }
{
    is_sim(plan, pair.from) && is_sim(plan, pair.to)
}

fn models_refer(plan: &Plan) -> bool
    ensures { result ≡ list_all (λ m. nat_lt m.sim.0 (length plan.now.sims)) plan.now.models }
{
    plan.models
        .as_slice()
        .iter()
        .all(|model| is_sim(plan, model.sim))
}

fn entities_refer(plan: &Plan) -> bool
    ensures { result ≡ list_all (entity_refers plan.now) plan.now.entities }
{
    plan.entities
        .as_slice()
        .iter()
        .all(|entity| entity_refers(plan, entity))
}

fn conns_refer(plan: &Plan) -> bool
    ensures { result ≡ list_all (conn_refers plan.now) plan.now.conns }
{
    plan.conns
        .as_slice()
        .iter()
        .all(|conn| conn_refers(plan, conn))
}

fn pairs_refer(plan: &Plan) -> bool
    ensures { result ≡ list_all (pair_refers plan.now) plan.now.asyncs }
{
    plan.asyncs
        .as_slice()
        .iter()
        .all(|pair| pair_refers(plan, pair))
}

pub(crate) fn refers_inside(plan: &Plan) -> bool
    ensures { result ≡ refers_inside plan.now }
{
    models_refer(plan) && entities_refer(plan) && conns_refer(plan) && pairs_refer(plan)
}
