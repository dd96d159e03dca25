//! What several tests have in common: two simulators A and B, plans of them, times and trees.
ghost use Rattle.std.specs.Prelude.{◌≡◌, ◌≤◌, pos, ◌≤ℤ◌, true, IfOk};
ghost use Rattle.mk_base.specs.Trees.{is_in_range};
ghost use Rattle.mk_base.specs.Tiers.{latest_time};
ghost use Rattle.mk_plan.specs.Plans.{IsValidPlan};

use mk_base::{Json, List, Mem, SimKind, SimNo, Text, Tier};
use mk_json::{JsonFault, read_json};
use mk_plan::{AsyncPair, Input, Plan, PlanEntity, PlanModel, PlanSim};
use mk_plan_check::{PlanFault, check_plan};
use mk_plan_samples::{OUT_TO_IN, Tie, connections, entities, entity, models, two_simulators};
use std::alloc::Global;

// A-0 and B-0, both of this kind, whose requests begin with this id.
fn simulators(alloc: Global, kind: SimKind, first_id: u64) -> Result<List<PlanSim>, Mem> {
    two_simulators(alloc, (kind, first_id), (kind, first_id))
}

// A lends to B.
fn lenders(alloc: Global) -> Result<List<AsyncPair>, Mem> {
    let mut asyncs = List::new(alloc);
    asyncs.push(AsyncPair {
        from: SimNo(0),
        to: SimNo(1),
    })?;
    Ok(asyncs)
}

// Models of A, which take `in`, and of B, which take anything.
fn two_models(alloc: Global) -> Result<List<PlanModel>, Mem> {
    let mut attrs = List::new(alloc);
    attrs.push(Text::of(alloc, "in")?)?;
    let mut models = List::new(alloc);
    models.push(PlanModel {
        sim: SimNo(0),
        name: Text::of(alloc, "M")?,
        attrs,
        any_inputs: false,
    })?;
    models.push(PlanModel {
        sim: SimNo(1),
        name: Text::of(alloc, "N")?,
        attrs: List::new(alloc),
        any_inputs: true,
    })?;
    Ok(models)
}

// Of A the entities `0` and `1`, of B `0` and `a.b`.
fn four_entities(alloc: Global) -> Result<List<PlanEntity>, Mem> {
    let mut entities = List::new(alloc);
    entities.push(entity(alloc, 0, "0", &[2])?)?;
    entities.push(entity(alloc, 0, "1", &[2, 3, 0])?)?;
    entities.push(entity(alloc, 1, "0", &[0, 1])?)?;
    entities.push(entity(alloc, 1, "a.b", &[])?)?;
    Ok(entities)
}

// `out` of A's first goes to `in` of B's first.
const TIES: [Tie; 1] = [Tie { to: 2, ..OUT_TO_IN }];

/// A lends to B, until 3.
pub fn lending_plan(alloc: Global) -> Result<Plan, Mem> {
    Ok(Plan {
        until: 3,
        loops: 100,
        entries: 1000,
        sims: simulators(alloc, SimKind::TimeBased, 3)?,
        models: two_models(alloc)?,
        entities: four_entities(alloc)?,
        conns: connections(alloc, &TIES)?,
        asyncs: lenders(alloc)?,
    })
}

/// A counter A and a sum B with an entity each, connected by these, until 5.
pub fn sum_plan(alloc: Global, ties: &[Tie]) -> Result<Plan, Mem> {
    Ok(Plan {
        until: 5,
        loops: 3,
        entries: 1000,
        sims: simulators(alloc, SimKind::Hybrid, 2)?,
        models: models(alloc, 2)?,
        entities: entities(alloc, 2)?,
        conns: connections(alloc, ties)?,
        asyncs: List::new(alloc),
    })
}

/// The plan, if it is valid.
pub fn checked(alloc: Global, plan: Plan) -> Result<Plan, PlanFault>
    ensures { IfOk result (λ valid. IsValidPlan valid) }
{
    check_plan(alloc, &plan)?;
    Ok(plan)
}

/// The time of an ordinary step.
pub fn at(time: u8) -> Tier
    ensures early { pos 0 ≤ℤ result.time }
    ensures late { result.time ≤ℤ latest_time }
    ensures low { result.tier ≤ 1000000 }
{
    Tier {
        time: i64::from(time),
        tier: 0,
    }
}

/// The tree of a text.
pub fn read(alloc: Global, text: &str) -> Result<Json, JsonFault>
    ensures { IfOk result (λ tree. is_in_range tree ≡ true) }
{
    read_json(alloc, text.as_bytes())
}

// One input as text.
fn line(alloc: Global, input: &Input) -> Result<String, Mem> {
    let value = std::str::from_utf8(input.value.bytes()).unwrap_or("");
    Ok(format!(in alloc;
        "{}.{} {}={value};",
        input.eid.as_str(),
        input.attr.as_str(),
        input.source.as_str()
    )?)
}

fn lines(alloc: Global, inputs: &[Input]) -> Result<String, Mem> {
    let mut lines = String::new(alloc);
    for input in inputs {
        let next = line(alloc, input)?;
        lines.push_str(next.as_str())?;
    }
    Ok(lines)
}

/// Whether these are the inputs of a step as text.
pub fn are_lines(alloc: Global, inputs: &[Input], want: &str) -> bool {
    match lines(alloc, inputs) {
        Ok(lines) => lines.as_str() == want,
        Err(_) => false,
    }
}
