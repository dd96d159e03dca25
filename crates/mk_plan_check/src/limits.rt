//! Whether the numbers and lengths of a plan are within their limits.
ghost use Rattle.std.specs.Prelude.{◌≡◌, IfSome};
ghost use Rattle.std.specs.Bool.{OnTrue};
ghost use Rattle.mk_base.specs.Data.{IsDatumText};
ghost use Rattle.mk_plan_check.specs.inner.FirstBad.{HasDatums};
ghost use Rattle.mk_plan_check.specs.Tests.{numbers_fit, sizes_fit, event_fits, sim_fits, models_of, models_fit, initial_fits, width_fits, is_within_limits};
ghost use Rattle.std.specs.List.{list_all};

use crate::nesting::text_nesting;
use mk_base::{
    Datum, HIGHEST_RANK, LATEST_END, MOST_CONNS, MOST_ENTITIES, MOST_ENTRIES, MOST_LOOPS,
    MOST_MODELS, MOST_REQUESTS, MOST_SIMS, VALUE_DEPTH, Via, WIDEST,
};
use mk_plan::{Conn, Plan, PlanSim};

fn numbers_fit(plan: &Plan) -> bool
    ensures { result ≡ numbers_fit plan.now }
{
    1 <= plan.until
        && plan.until <= LATEST_END
        && 1 <= plan.loops
        && plan.loops <= MOST_LOOPS
        && 1 <= plan.entries
        && plan.entries <= MOST_ENTRIES
}

fn sizes_fit(plan: &Plan) -> bool
    ensures { result ≡ sizes_fit plan.now }
{
    1 <= plan.sims.len()
        && plan.sims.len() <= MOST_SIMS as usize
        && plan.entities.len() <= MOST_ENTITIES as usize
        && plan.conns.len() <= MOST_CONNS as usize
}

fn event_fits(event: i64) -> bool
    ensures { result ≡ event_fits event }
{
    0 <= event && event <= LATEST_END
}

fn events_fit(events: &[i64]) -> bool
    ensures { result ≡ list_all event_fits events.now }
{
    events.iter().all(|event| event_fits(*event))
}

fn sim_fits(sim: &PlanSim) -> bool
    ensures { result ≡ sim_fits sim.now }
{
    sim.rank <= HIGHEST_RANK
        && sim.first_id <= u64::from(MOST_REQUESTS)
        && events_fit(sim.initial.as_slice())
}

fn sims_fit(plan: &Plan) -> bool
    ensures { result ≡ list_all sim_fits plan.now.sims }
{
    plan.sims.as_slice().iter().all(|sim| sim_fits(sim))
}

fn models_of(plan: &Plan, sim: usize) -> usize
    ensures { result ≡ models_of plan.now sim }
{
    plan.models
        .as_slice()
        .iter()
        .filter(|model| model.sim.0 as usize == sim)
        .count()
}

fn models_fit(plan: &Plan) -> bool
    ensures { result ≡ models_fit plan.now }
{
    (0..plan.sims.len()).all(|sim| models_of(plan, sim) <= MOST_MODELS as usize)
}

fn initial_fits(initial: &Option<Datum>) -> bool
    ensures value { result ≡ initial_fits initial.now }
    ensures datum { IfSome initial.now IsDatumText }
{
    match initial {
        None => true,
        Some(datum) => text_nesting(datum.bytes()) <= VALUE_DEPTH as usize,
    }
}

fn initials_fit(plan: &Plan) -> bool
    ensures value { result ≡ list_all (λ c. initial_fits c.initial) plan.now.conns }
    ensures datums { OnTrue result (HasDatums plan.now) }
{
    for conn in plan.conns.as_slice() {
        if !initial_fits(&conn.initial) {
            return false;
        }
    }
    true
}

fn width_fits(conn: &Conn) -> bool
    ensures { result ≡ width_fits conn.now.via }
{
    match conn.via {
        Via::Plain | Via::Weak => true,
        Via::Shift(width) => 1 <= width && width <= WIDEST,
    }
}

fn widths_fit(plan: &Plan) -> bool
    ensures { result ≡ list_all (λ c. width_fits c.via) plan.now.conns }
{
    plan.conns.as_slice().iter().all(width_fits)
}

pub(crate) fn is_within_limits(plan: &Plan) -> bool
    ensures value { result ≡ is_within_limits plan.now }
    ensures datums { OnTrue result (HasDatums plan.now) }
{
    numbers_fit(plan)
        && sizes_fit(plan)
        && sims_fit(plan)
        && models_fit(plan)
        && initials_fit(plan)
        && widths_fit(plan)
}
