//! Small plans: simulators with one model and one entity each, and connections between these.
ghost use Rattle.std.specs.Prelude.{◌≡◌, ◌<◌, length, IfOk};

use mk_base::{Datum, List, Mem, SimKind, SimNo, Text, Via};
use mk_plan::{Conn, Plan, PlanEntity, PlanModel, PlanSim};
use std::alloc::Global;

/// A simulator of this id, kind and rank, without initial events, whose requests begin with the id `first_id`.
pub fn simulator(
    alloc: Global,
    id: &str,
    kind: SimKind,
    first_id: u64,
    rank: u32,
) -> Result<PlanSim, Mem> {
    Ok(PlanSim {
        id: Text::of(alloc, id)?,
        kind,
        first_id,
        rank,
        initial: List::new(alloc),
    })
}

/// A-0 and B-0 of these kinds, whose requests begin with these ids.
pub fn two_simulators(
    alloc: Global,
    first: (SimKind, u64),
    second: (SimKind, u64),
) -> Result<List<PlanSim>, Mem>
    ensures { IfOk result (λ sims. length sims ≡ 2) }
{
    let mut sims = List::new(alloc);
    sims.push(simulator(alloc, "A-0", first.0, first.1, 0)?)?;
    sims.push(simulator(alloc, "B-0", second.0, second.1, 1)?)?;
    Ok(sims)
}

fn model(alloc: Global, sim: u32) -> Result<PlanModel, Mem> {
    Ok(PlanModel {
        sim: SimNo(sim),
        name: Text::of(alloc, "M")?,
        attrs: List::new(alloc),
        any_inputs: true,
    })
}

/// A model of each of so many simulators, which takes anything.
pub fn models(alloc: Global, count: u32) -> Result<List<PlanModel>, Mem> {
    let mut models = List::new(alloc);
    for sim in 0..count {
        models.push(model(alloc, sim)?)?;
    }
    Ok(models)
}

/// An entity of a model, related to these.
pub fn entity(alloc: Global, model: u32, eid: &str, others: &[u32]) -> Result<PlanEntity, Mem> {
    let mut related = List::new(alloc);
    for other in others {
        related.push(*other)?;
    }
    Ok(PlanEntity {
        model,
        eid: Text::of(alloc, eid)?,
        related,
    })
}

/// The entity `0` of each of so many models.
pub fn entities(alloc: Global, count: u32) -> Result<List<PlanEntity>, Mem> {
    let mut entities = List::new(alloc);
    for model in 0..count {
        entities.push(entity(alloc, model, "0", &[])?)?;
    }
    Ok(entities)
}

/// A connection, by its entities' places, and whether it has the initial value 7.
#[derive(Clone, Copy)]
pub struct Tie {
    pub from: u32,
    pub from_attr: &'static str,
    pub to: u32,
    pub to_attr: &'static str,
    pub via: Via,
    pub persistent: bool,
    pub triggering: bool,
    pub initial: bool,
}

/// The first entity's `out` goes to the second's `in`.
pub const OUT_TO_IN: Tie = Tie {
    from: 0,
    from_attr: "out",
    to: 1,
    to_attr: "in",
    via: Via::Plain,
    persistent: true,
    triggering: false,
    initial: false,
};

fn seven(alloc: Global) -> Result<Datum, Mem> {
    let bytes = Vec::from_slice(alloc, b"7")?;
    Ok(Datum::of(bytes))
}

fn initial(alloc: Global, tie: &Tie) -> Result<Option<Datum>, Mem> {
    if tie.initial {
        Ok(Some(seven(alloc)?))
    } else {
        Ok(None)
    }
}

fn connection(alloc: Global, tie: &Tie) -> Result<Conn, Mem> {
    Ok(Conn {
        from: tie.from,
        from_attr: Text::of(alloc, tie.from_attr)?,
        to: tie.to,
        to_attr: Text::of(alloc, tie.to_attr)?,
        via: tie.via,
        persistent: tie.persistent,
        triggering: tie.triggering,
        initial: initial(alloc, tie)?,
    })
}

/// These connections.
pub fn connections(alloc: Global, ties: &[Tie]) -> Result<List<Conn>, Mem> {
    let mut conns = List::new(alloc);
    for tie in ties {
        conns.push(connection(alloc, tie)?)?;
    }
    Ok(conns)
}

// How many simulators there are, of fewer than ten.
fn count_of(sims: &List<PlanSim>) -> u32 {
    sims.len().min(9) as u32
}

/// A plan of fewer than ten simulators with an entity each and these connections, until this time and with this loop
/// limit.
pub fn plan_of(
    alloc: Global,
    until: i64,
    loops: u32,
    sims: List<PlanSim>,
    conns: List<Conn>,
) -> Result<Plan, Mem>
    ensures { IfOk result (λ plan. plan.sims ≡ sims) }
{
    let count = count_of(&sims);
    Ok(Plan {
        until,
        loops,
        entries: 1000,
        sims,
        models: models(alloc, count)?,
        entities: entities(alloc, count)?,
        conns,
        asyncs: List::new(alloc),
    })
}

/// One of two simulators.
#[derive(Clone, Copy)]
pub enum Who {
    A,
    B,
}

/// Its number.
pub fn number(who: Who) -> SimNo
    ensures { result.0 < 2 }
{
    match who {
        Who::A => SimNo(0),
        Who::B => SimNo(1),
    }
}
