//! Whether each rank stands once, and plain connections and asynchronous pairs rise.
ghost use Rattle.std.specs.Prelude.{◌≡◌, ◌==◌, nat_lt, length};
ghost use Rattle.std.specs.List.{list_all, range_with_len};
ghost use Rattle.mk_plan_check.specs.Tests.{ranked, conn_rises, pair_rises, has_ranks};

use crate::parts::{owner, rank_of};
use mk_base::Via;
use mk_plan::{AsyncPair, Conn, Plan};

fn ranked(plan: &Plan, rank: usize) -> usize
    ensures { result ≡ ranked plan.now rank }
{
    plan.sims
        .as_slice()
        .iter()
        .filter(|sim| sim.rank as usize == rank)
        .count()
}

fn conn_rises(plan: &Plan, conn: &Conn) -> bool
    ensures { result ≡ conn_rises plan.now conn.now }
{
    match conn.via {
        Via::Plain => rank_of(plan, owner(plan, conn.from as usize))
            < rank_of(plan, owner(plan, conn.to as usize)),
        Via::Shift(_) | Via::Weak => true,
    }
}

fn pair_rises(plan: &Plan, pair: &AsyncPair) -> bool
    ensures { result ≡ pair_rises plan.now pair.now }
{
    rank_of(plan, pair.from.0 as usize) < rank_of(plan, pair.to.0 as usize)
}

fn ranks_below(plan: &Plan) -> bool
    ensures { result ≡ list_all (λ s. nat_lt s.rank (length plan.now.sims)) plan.now.sims }
{
    plan.sims
        .as_slice()
        .iter()
        .all(|sim| (sim.rank as usize) < plan.sims.len())
}

fn ranks_once(plan: &Plan) -> bool
    ensures { result ≡ list_all (λ r. ranked plan.now r == 1)
        (range_with_len 0 (length plan.now.sims)) }
{
    (0..plan.sims.len()).all(|rank| ranked(plan, rank) == 1)
}

fn conns_rise(plan: &Plan) -> bool
    ensures { result ≡ list_all (conn_rises plan.now) plan.now.conns }
{
    plan.conns
        .as_slice()
        .iter()
        .all(|conn| conn_rises(plan, conn))
}

fn pairs_rise(plan: &Plan) -> bool
    ensures { result ≡ list_all (pair_rises plan.now) plan.now.asyncs }
{
    plan.asyncs
        .as_slice()
        .iter()
        .all(|pair| pair_rises(plan, pair))
}

pub(crate) fn has_ranks(plan: &Plan) -> bool
    ensures { result ≡ has_ranks plan.now }
{
    ranks_below(plan) && ranks_once(plan) && conns_rise(plan) && pairs_rise(plan)
}
