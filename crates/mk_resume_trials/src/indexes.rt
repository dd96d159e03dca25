//! The index of a small journal, which grows.
ghost use Rattle.std.specs.Prelude.{◌≡◌, ◌<◌, length, IfOk};

use mk_base::{Json, List, Mem, SimNo, Tier};
use mk_plan::{Entry, Item, Message};
use mk_resume_walk::Index;
use std::alloc::Global;
use std::test::Fail;

fn step(alloc: Global, sim: u32) -> Entry {
    let item = Item::Step {
        at: Tier { time: 0, tier: 0 },
        inputs: List::new(alloc),
        max_advance: 3,
    };
    Entry::Sent(SimNo(sim), item)
}

fn reply(sim: u32) -> Entry {
    let content = Json::Whole(1);
    Entry::Got(SimNo(sim), Message::Success { id: 1, content })
}

// Simulator 0 is asked, then 1; 1 replies, then 0 does and is asked again.
fn entries(alloc: Global) -> Result<List<Entry>, Mem>
    ensures { IfOk result (λ entries. length entries ≡ 5) }
{
    let mut entries = List::new(alloc);
    entries.push(step(alloc, 0))?;
    entries.push(step(alloc, 1))?;
    entries.push(reply(1))?;
    entries.push(reply(0))?;
    entries.push(step(alloc, 0))?;
    Ok(entries)
}

// Where a simulator's next entry stands, once none, one, two and three were gone through.
fn places(index: &Index, sim: u32) -> [Option<usize>; 4]
    requires { sim < length index.now.own }
{
    [
        index.next(SimNo(sim), 0),
        index.next(SimNo(sim), 1),
        index.next(SimNo(sim), 2),
        index.next(SimNo(sim), 3),
    ]
}

#[test]
fn the_next_entry_of_a_simulator(rt: HostRuntime) -> Result<(), Fail> {
    let alloc = rt.alloc();
    let entries = entries(alloc)?;
    let mut index = Index::new(alloc, 2)?;

    // Three entries were added.
    index.grow(&entries.as_slice()[..3])?;
    assert_eq!(rt; places(&index, 0), [Some(0), None, None, None]);
    assert_eq!(rt; places(&index, 1), [Some(1), Some(2), None, None]);

    // All were.
    index.grow(entries.as_slice())?;
    assert_eq!(rt; places(&index, 0), [Some(0), Some(3), Some(4), None]);
    assert_eq!(rt; places(&index, 1), [Some(1), Some(2), None, None]);
    Ok(())
}
