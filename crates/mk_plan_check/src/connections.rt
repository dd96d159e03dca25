//! What each connection has to be, by its kind and its ends.
ghost use Rattle.std.specs.Prelude.{◌≡◌, is_some, IfOk};
ghost use Rattle.std.specs.List.{list_all};
ghost use Rattle.mk_plan_check.specs.Tests.{initial_stands, persistence_fits, triggering_fits, kinds_fit, has_initial_values, has_kinds_of_connections};

use crate::agreement::{sources_agree, targets_agree};
use crate::parts::{kind_of, owner};
use mk_base::{Mem, SimKind, Via};
use mk_plan::{Conn, Plan};
use std::alloc::Global;

fn initial_stands(conn: &Conn) -> bool
    ensures { result ≡ initial_stands conn.now.via conn.now.persistent (is_some conn.now.initial) }
{
    match conn.via {
        Via::Plain => conn.initial.is_none(),
        Via::Shift(_) => !conn.persistent || conn.initial.is_some(),
        Via::Weak => true,
    }
}

pub(crate) fn has_initial_values(plan: &Plan) -> bool
    ensures { result ≡ has_initial_values plan.now }
{
    plan.conns.as_slice().iter().all(initial_stands)
}

fn persistence_fits(kind: SimKind, persistent: bool) -> bool
    ensures { result ≡ persistence_fits kind persistent }
{
    match kind {
        SimKind::TimeBased => persistent,
        SimKind::EventBased => !persistent,
        SimKind::Hybrid => true,
    }
}

fn triggering_fits(kind: SimKind, triggering: bool) -> bool
    ensures { result ≡ triggering_fits kind triggering }
{
    match kind {
        SimKind::TimeBased => !triggering,
        SimKind::EventBased => triggering,
        SimKind::Hybrid => true,
    }
}

fn kinds_fit(plan: &Plan, conn: &Conn) -> bool
    ensures { result ≡ kinds_fit plan.now conn.now }
{
    persistence_fits(
        kind_of(plan, owner(plan, conn.from as usize)),
        conn.persistent,
    ) && triggering_fits(
        kind_of(plan, owner(plan, conn.to as usize)),
        conn.triggering,
    )
}

fn all_kinds_fit(plan: &Plan) -> bool
    ensures { result ≡ list_all (kinds_fit plan.now) plan.now.conns }
{
    plan.conns
        .as_slice()
        .iter()
        .all(|conn| kinds_fit(plan, conn))
}

pub(crate) fn has_kinds_of_connections(alloc: Global, plan: &Plan) -> Result<bool, Mem>
    ensures { IfOk result (λ holds. holds ≡ has_kinds_of_connections plan.now) }
{
    if !all_kinds_fit(plan) || !sources_agree(alloc, plan)? {
        return Ok(false);
    }
    targets_agree(alloc, plan)
}
