//! The asynchronous pairs of simulators, each once, at the first block that asks for it.
ghost use Rattle.std.specs.Prelude.{◌≡◌, [], fold, length, map, IfOk, OnOk};
ghost use Rattle.mk_base.specs.Lists.{Each};
ghost use Rattle.mk_connect_pairs.specs.Usable.{IsUsable};
ghost use Rattle.mk_connect.specs.Asyncs.{asyncs_in, asyncs_of, pair_put};

use crate::ordering::sim_at;
use indexmap::IndexSet;
use mk_base::{List, Mem, SimNo};
use mk_plan::AsyncPair;
use mk_scenario::{Block, Group};
use std::alloc::Global;
use std::marker::Model;

// Distinct pairs, in the order in which they came, which contracts see as the list of them.
#[derive(Drop)]
struct Pairs {
    kept: IndexSet<(u32, u32)>,
}

impl Model for Pairs {
    ghost use Rattle.std.specs.Prelude.{List, map};
    ghost use Rattle.mk_plan.specs.declared.AsyncPair.{AsyncPair};
    ghost use Rattle.mk_connect.specs.inner.Asyncs.{async_of};

    ghost Value = { List AsyncPair };

    ghost view = { λ a. map async_of a.kept.keys };
}

impl Pairs {
    fn new(alloc: Global) -> Pairs
        ensures { result ≡ [] }
    {
        Pairs {
            kept: IndexSet::new(alloc),
        }
    }

    // One pair more, unless it is there.
    fn put(&mut self, pair: AsyncPair) -> Result<(), Mem>
        ensures { OnOk result (self.new ≡ pair_put self.old pair) }
    {
        self.kept.insert((pair.from.0, pair.to.0))?;
        Ok(())
    }

    fn listed(&self, alloc: Global) -> Result<List<AsyncPair>, Mem>
        ensures { IfOk result (λ pairs. pairs ≡ self.now) }
    {
        let mut pairs = List::new(alloc);
        for key in self.kept.as_slice() {
            pairs.push(AsyncPair {
                from: SimNo(key.0),
                to: SimNo(key.1),
            })?;
        }
        Ok(pairs)
    }
}

// The pairs of all blocks, which stand between places of these groups.
pub fn asyncs_of(
    alloc: Global,
    groups: &List<Group>,
    blocks: &[Block],
) -> Result<List<AsyncPair>, Mem>
    requires { Each (IsUsable (length groups.now)) blocks.now }
    ensures { IfOk result (λ pairs. pairs ≡ asyncs_of groups.now blocks.now) }
{
    let mut pairs = Pairs::new(alloc);
    for block in blocks {
        put_async(&mut pairs, groups, block)?;
    }
    let listed = pairs.listed(alloc)?;
    Ok(listed)
}

// Puts the pair of the block, if it is asynchronous.
fn put_async(pairs: &mut Pairs, groups: &List<Group>, block: &Block) -> Result<(), Mem>
    requires { IsUsable (length groups.now) block.now }
    ensures { OnOk result (pairs.new ≡ fold pair_put pairs.old (asyncs_in groups.now block.now)) }
{
    if block.async_requests {
        pairs.put(AsyncPair {
            from: sim_at(groups, &block.from),
            to: sim_at(groups, &block.to),
        })?;
    }
    Ok(())
}
