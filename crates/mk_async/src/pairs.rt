//! Whether the asynchronous connections of a request are there.
ghost use Rattle.std.specs.Prelude.{◌≡◌};
ghost use Rattle.mk_plan.specs.Plans.{RefersInside};
ghost use Rattle.mk_plan_names.specs.Names.{AreNamesOf};
ghost use Rattle.mk_async.specs.inner.Known.{lends, lends_destinations, lends_each, lends_sources, permits_asked};

use crate::known::entity_of;
use crate::request::Asked;
use mk_base::{Json, Members, SimNo, Text};
use mk_plan::Plan;
use mk_plan_names::Names;

// Whether the asynchronous connections that what the simulator asks for needs are there.
pub fn permits(plan: &Plan, names: &Names, sim: SimNo, asked: &Asked) -> bool
    requires references { RefersInside plan.now }
    requires names { AreNamesOf plan.now names.now }
    ensures { result ≡ permits_asked plan.now sim.0 asked.now }
{
    match asked {
        Asked::Get(wants) => lends_each(plan, names, sim, wants),
        Asked::Set(sources) => lends_sources(plan, names, sim, sources),
        Asked::Related(_) => true,
        Asked::RelatedOfEach(_) => true,
    }
}

// Whether the simulators of all destinations lend to the simulator.
fn lends_sources(plan: &Plan, names: &Names, sim: SimNo, sources: &Members<Json>) -> bool
    requires references { RefersInside plan.now }
    requires names { AreNamesOf plan.now names.now }
    ensures { result ≡ lends_sources plan.now sim.0 sources.now }
{
    sources
        .entries()
        .iter()
        .all(|source| lends_destinations(plan, names, sim, &source.1))
}

fn lends_destinations(plan: &Plan, names: &Names, sim: SimNo, tree: &Json) -> bool
    requires references { RefersInside plan.now }
    requires names { AreNamesOf plan.now names.now }
    ensures { result ≡ lends_destinations plan.now sim.0 tree.now }
{
    match tree.as_object() {
        Some(members) => lends_each(plan, names, sim, members),
        None => false,
    }
}

// Whether the simulators of all entities that name a member lend to the simulator.
fn lends_each(plan: &Plan, names: &Names, sim: SimNo, members: &Members<Json>) -> bool
    requires references { RefersInside plan.now }
    requires names { AreNamesOf plan.now names.now }
    ensures { result ≡ lends_each plan.now sim.0 members.now }
{
    members
        .entries()
        .iter()
        .all(|member| lends(plan, names, sim, &member.0))
}

// Whether the entity's simulator lends to the simulator.
fn lends(plan: &Plan, names: &Names, sim: SimNo, id: &Text) -> bool
    requires references { RefersInside plan.now }
    requires names { AreNamesOf plan.now names.now }
    ensures { result ≡ lends plan.now sim.0 id.now }
{
    match entity_of(plan, names, id) {
        Some(entity) => names.has_pair(plan.owner(entity), sim),
        None => false,
    }
}
