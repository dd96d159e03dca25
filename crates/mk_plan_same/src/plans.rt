//! The first part of two plans that isn't the same.
ghost use Rattle.std.specs.Prelude.{◌≡◌};
ghost use Rattle.mk_plan_same.specs.Decisions.{Decides};
ghost use Rattle.mk_plan_same.specs.Parts.{HaveSameBounds, IsFirstOther, IsFirstPart, number};

use crate::same::same_all;
use mk_plan::Plan;

// A part of a plan. The limit of entries belongs to none.
#[derive(Clone, Copy)]
pub enum Part {
    Bounds,
    Sims,
    Models,
    Entities,
    Conns,
    Asyncs,
}

impl Part {
    // Its number.
    fn number(self) -> u8
        ensures { result ≡ number self }
    {
        match self {
            Part::Bounds => 1,
            Part::Sims => 2,
            Part::Models => 3,
            Part::Entities => 4,
            Part::Conns => 5,
            Part::Asyncs => 6,
        }
    }
}

/// The number of the first part in which two plans differ: 1 the run's end or the loop limit, 2 the
/// simulators, 3 the models, 4 the entities, 5 the connections, 6 the asynchronous connections;
/// `None` where all are the same. The limit of entries isn't compared, so that a run that met it
/// can go on under a larger one. It takes no memory.
pub fn plan_differs(one: &Plan, other: &Plan) -> Option<u8>
    ensures { IsFirstOther one.now other.now result }
{
    match first_part(one, other) {
        None => None,
        Some(part) => Some(part.number()),
    }
}

// The first part in which two plans differ.
fn first_part(one: &Plan, other: &Plan) -> Option<Part>
    ensures { IsFirstPart one.now other.now result }
{
    if !same_bounds(one, other) {
        return Some(Part::Bounds);
    }
    if !same_all(&one.sims, &other.sims) {
        return Some(Part::Sims);
    }
    if !same_all(&one.models, &other.models) {
        return Some(Part::Models);
    }
    if !same_all(&one.entities, &other.entities) {
        return Some(Part::Entities);
    }
    if !same_all(&one.conns, &other.conns) {
        return Some(Part::Conns);
    }
    if !same_all(&one.asyncs, &other.asyncs) {
        return Some(Part::Asyncs);
    }
    None
}

fn same_bounds(one: &Plan, other: &Plan) -> bool
    ensures { Decides result (HaveSameBounds one.now other.now) }
{
    one.until == other.until && one.loops == other.loops
}
