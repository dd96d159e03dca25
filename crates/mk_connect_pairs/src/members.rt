//! The entities of each group.
ghost use Rattle.std.specs.Prelude.{◌≡◌, ◌≤◌, ◌<◌, [], length, IfOk, OnOk};
ghost use Rattle.mk_connect_pairs.specs.Lookups.{HasMembers};
ghost use Rattle.mk_connect_pairs.specs.inner.Lookups.{HasMember};
ghost use Rattle.mk_base.specs.Limits.{most_entities};

use mk_base::{List, Mem};
use mk_entities::EntityInfo;
use std::alloc::Global;

/// The numbers of each group's entities, in order, for so many groups. Fails for want of memory alone.
pub fn members_of(
    alloc: Global,
    groups: usize,
    entities: &[EntityInfo],
) -> Result<Vec<List<u32>>, Mem>
    requires { length entities.now ≤ most_entities }
    ensures { IfOk result (λ members. (length members.items ≡ groups)
        × HasMembers entities.now members.items) }
{
    let mut members = no_members(alloc, groups)?;
    for (number, entity) in entities.iter().enumerate() {
        put_member(&mut members, entity.group, number as u32)?;
    }
    Ok(members)
}

fn no_members(alloc: Global, groups: usize) -> Result<Vec<List<u32>>, Mem>
    ensures { IfOk result (λ members. (length members.items ≡ groups)
        × HasMembers [] members.items) }
{
    let mut members = Vec::new(alloc);
    for _ in 0..groups {
        members.push(List::new(alloc))?;
    }
    Ok(members)
}

// Puts an entity's number to those of its group.
fn put_member(members: &mut Vec<List<u32>>, group: Option<u32>, number: u32) -> Result<(), Mem>
    ensures { OnOk result (HasMember members.old.items group number members.new.items) }
{
    let Some(group) = group else {
        return Ok(());
    };
    let place = group as usize;
    if place < members.len() {
        members[place].push(number)?;
    }
    Ok(())
}
