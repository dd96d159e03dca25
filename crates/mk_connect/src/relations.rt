//! Which entities are related: one names the other or has it as its child, or a block pairs them.
ghost use Rattle.std.specs.Prelude.{◌≡◌, ◌<◌, ℕ, [], List, flat_map, fold, length, map, IfOk, OnOk};
ghost use Rattle.std.specs.List.{range_with_len};
ghost use Rattle.std.specs.Ordering.{nat_cmp};
ghost use Rattle.std.specs.BTreeSet.{insert_key};
ghost use Rattle.mk_base.specs.Lists.{Each};
ghost use Rattle.mk_connect_pairs.specs.Connections.{block_pairs};
ghost use Rattle.mk_connect.specs.inner.Joining.{joined, put_all};
ghost use Rattle.mk_connect_pairs.specs.Usable.{IsUsable};
ghost use Rattle.mk_connect.specs.Related.{own_pairs, pairs_of, related};

use mk_base::{List, Mem};
use mk_connect_pairs::{Study, block_pairs};
use mk_entities::{EntityInfo, listed};
use mk_scenario::Block;
use std::alloc::Global;
use std::collections::BTreeSet;
use std::marker::Model;

// Distinct numbers, which contracts see as the rising list of them.
#[derive(Drop)]
pub struct Numbers {
    kept: BTreeSet<u32>,
}

impl Model for Numbers {
    ghost use Rattle.std.specs.Prelude.{List, ℕ};
    ghost use Rattle.std.specs.Coded.{coded_list, coded_ℕ};

    ghost Value = { List ℕ };

    ghost coded = { coded_list coded_ℕ };

    ghost view = { λ a. a.kept.keys };
}

impl Numbers {
    fn new(alloc: Global) -> Numbers
        ensures { result ≡ [] }
    {
        Numbers {
            kept: BTreeSet::new(alloc),
        }
    }

    fn put(&mut self, number: u32) -> Result<(), Mem>
        ensures { OnOk result (self.new ≡ insert_key nat_cmp self.old number) }
    {
        self.kept.insert(number)?;
        Ok(())
    }

    pub fn listed(&self, alloc: Global) -> Result<List<u32>, Mem>
        ensures { IfOk result (λ list. list ≡ self.now) }
    {
        listed(alloc, &self.kept)
    }
}

// The numbers of the entities that each entity is related to.
pub fn related_of(alloc: Global, study: &Study, blocks: &[Block]) -> Result<Vec<Numbers>, Mem>
    requires { Each (IsUsable (length study.now.members.now)) blocks.now }
    ensures { IfOk result (λ lists. lists.items
        ≡ map (related (length study.now.entities.now) (pairs_of study.now.entities.now blocks.now))
        (range_with_len 0 (length study.now.entities.now))) }
{
    let entities = study.entities.as_slice();
    let mut lists = no_lists(alloc, entities.len())?;
    join_own(&mut lists, entities)?;
    join_blocks(alloc, &mut lists, study, blocks)?;
    Ok(lists)
}

fn no_lists(alloc: Global, count: usize) -> Result<Vec<Numbers>, Mem>
    ensures { IfOk result (λ lists. lists.items ≡ map (related count []) (range_with_len 0 count)) }
{
    let mut lists = Vec::new(alloc);
    for _ in 0..count {
        lists.push(Numbers::new(alloc))?;
    }
    Ok(lists)
}

// Joins each entity with those that it names and its children.
fn join_own(lists: &mut Vec<Numbers>, entities: &[EntityInfo]) -> Result<(), Mem>
    requires { length entities.now < 4294967296 }
    ensures { OnOk result (lists.new.items
        ≡ fold joined lists.old.items (own_pairs 0 entities.now)) }
{
    for (number, entity) in entities.iter().enumerate() {
        join_with(lists, number as u32, &entity.related)?;
    }
    Ok(())
}

// Joins an entity with each of these.
fn join_with(lists: &mut Vec<Numbers>, number: u32, others: &List<u32>) -> Result<(), Mem>
    ensures { OnOk result (lists.new.items
        ≡ fold joined lists.old.items (map (λ i. (number, i)) others.now)) }
{
    for other in others.as_slice() {
        join(lists, (number, *other))?;
    }
    Ok(())
}

// Joins the entities that blocks pair.
fn join_blocks(
    alloc: Global,
    lists: &mut Vec<Numbers>,
    study: &Study,
    blocks: &[Block],
) -> Result<(), Mem>
    requires { Each (IsUsable (length study.now.members.now)) blocks.now }
    ensures { OnOk result (lists.new.items
        ≡ fold joined lists.old.items (flat_map (block_pairs study.now.entities.now) blocks.now)) }
{
    for block in blocks {
        let pairs = block_pairs(alloc, study, block)?;
        join_all(lists, pairs.as_slice())?;
    }
    Ok(())
}

fn join_all(lists: &mut Vec<Numbers>, pairs: &[(u32, u32)]) -> Result<(), Mem>
    ensures { OnOk result (lists.new.items ≡ fold joined lists.old.items pairs.now) }
{
    for pair in pairs {
        join(lists, *pair)?;
    }
    Ok(())
}

// Puts both of a pair of different entities to one another.
fn join(lists: &mut Vec<Numbers>, pair: (u32, u32)) -> Result<(), Mem>
    ensures { OnOk result (lists.new.items ≡ joined lists.old.items pair) }
{
    let (i, j) = pair;
    if i != j && (i as usize) < lists.len() && (j as usize) < lists.len() {
        put(lists, i, j)?;
        put(lists, j, i)?;
    }
    Ok(())
}

// Puts number j to those at place i.
fn put(lists: &mut Vec<Numbers>, i: u32, j: u32) -> Result<(), Mem>
    requires { i < length lists.old.items }
    ensures ok { OnOk result (lists.new.items ≡ put_all i j lists.old.items) }
    ensures count { length lists.new.items ≡ length lists.old.items }
{
    lists[i as usize].put(j)?;
    Ok(())
}
