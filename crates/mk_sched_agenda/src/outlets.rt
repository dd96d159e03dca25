//! Where outputs of each simulator go by its triggering connections.
ghost use Rattle.std.specs.Prelude.{◌≡◌, ℕ, ◌<◌, ◌+◌, ◌^◌, [], length, IfOk, OnOk, Some, slice_get};
ghost use Rattle.mk_plan.specs.Plans.{RefersInside, sim_count};
ghost use Rattle.mk_sched_agenda.specs.Outlets.{outlets_in};
ghost use Rattle.mk_sched_agenda.specs.inner.Outlets.{AreRowsOf};

use mk_base::{List, Mem, SimNo, Via};
use mk_plan::{Conn, Plan};
use std::alloc::Global;

/// A triggering connection of a simulator: its place in the plan, the simulator that it triggers, and how it delays.
#[derive(Clone, Copy, Debug, PartialEq, Eq)]
pub struct Outlet {
    pub conn: u32,
    pub to: SimNo,
    pub via: Via,
}

/// A trigger beyond the loop limit: the simulator that it triggers, and the time, in the unit of the scenario.
#[derive(Clone, Copy, Debug, PartialEq, Eq)]
pub struct Beyond {
    pub sim: SimNo,
    pub time: i64,
}

// The outlets of each simulator, in plan order.
pub fn outlets_of(alloc: Global, plan: &Plan) -> Result<Vec<List<Outlet>>, Mem>
    requires references { RefersInside plan.now }
    requires few { length plan.now.conns < 2 ^ 32 }
    ensures { IfOk result (λ rows. AreRowsOf plan.now (length plan.now.conns) rows.items) }
{
    let mut rows = no_rows(alloc, plan)?;
    for (place, conn) in plan.conns.as_slice().iter().enumerate() {
        add_conn(plan, &mut rows, place, conn)?;
    }
    Ok(rows)
}

// So many rows as there are simulators, without outlets.
fn no_rows(alloc: Global, plan: &Plan) -> Result<Vec<List<Outlet>>, Mem>
    ensures count { IfOk result (λ rows. length rows.items ≡ sim_count plan.now) }
    ensures none { IfOk result (λ rows. (i : ℕ) → outlets_in rows.items i ≡ []) }
{
    let mut rows = Vec::with_capacity(alloc, plan.sims.len())?;
    for _sim in plan.sims.as_slice() {
        rows.push(List::new(alloc))?;
    }
    Ok(rows)
}

// Adds a connection, if it triggers.
fn add_conn(plan: &Plan, rows: &mut Vec<List<Outlet>>, place: usize, conn: &Conn) -> Result<(), Mem>
    requires references { RefersInside plan.now }
    requires few { place < 2 ^ 32 }
    requires there { slice_get plan.now.conns place ≡ Some conn.now }
    requires rows { AreRowsOf plan.now place rows.old.items }
    ensures { OnOk result (AreRowsOf plan.now (place + 1) rows.new.items) }
{
    if conn.triggering {
        let outlet = Outlet {
            conn: place as u32,
            to: plan.owner(conn.to),
            via: conn.via,
        };
        rows[plan.owner(conn.from).0 as usize].push(outlet)?;
    }
    Ok(())
}
