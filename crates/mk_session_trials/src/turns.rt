//! Links take turns.
use mk_base::{LinkNo, Mem};
use mk_poll::Turns;
use std::alloc::Global;

const ONE: LinkNo = LinkNo(1);

const TWO: LinkNo = LinkNo(2);

const FOUR: LinkNo = LinkNo(4);

// Whose turn it is while there are no links.
fn nobody(alloc: Global) -> Option<LinkNo> {
    let mut turns = Turns::new(alloc);
    turns.take()
}

// Whose turns follow that of the link 4, which is parked once it had its turn; none where another was first.
fn followers(alloc: Global) -> Result<[Option<LinkNo>; 4], Mem> {
    let mut turns = Turns::new(alloc);
    turns.add(FOUR)?;
    turns.add(TWO)?;
    if turns.take() != Some(FOUR) {
        return Ok([None; 4]);
    }
    turns.park(FOUR);
    turns.ready(TWO);
    turns.ready(FOUR);
    turns.ready(FOUR);
    let second = turns.take();
    let third = turns.take();
    let nobody = turns.take();
    turns.ready(TWO);
    let last = turns.take();
    Ok([second, third, nobody, last])
}

// How many links are parked: the first once it is, and none once it is ready again.
fn parked(alloc: Global) -> Result<(bool, usize), Mem> {
    let mut turns = Turns::new(alloc);
    turns.add(FOUR)?;
    if turns.take() != Some(FOUR) {
        return Ok((false, 0));
    }
    turns.park(FOUR);
    let is_parked = turns.parked() == [FOUR].as_slice();
    turns.ready(FOUR);
    Ok((is_parked, turns.parked().len()))
}

// Of the links 1, 2 and 4, which are parked in this order, those that are left as each becomes ready, in this order
// too: the last one stands in the place of the one that leaves.
fn left(alloc: Global) -> Result<[bool; 3], Mem> {
    let mut turns = Turns::new(alloc);
    turns.add(ONE)?;
    turns.add(TWO)?;
    turns.add(FOUR)?;
    if (turns.take(), turns.take(), turns.take()) != (Some(ONE), Some(TWO), Some(FOUR)) {
        return Ok([false; 3]);
    }
    turns.park(ONE);
    turns.park(TWO);
    turns.park(FOUR);
    turns.ready(ONE);
    let without_one = turns.parked() == [FOUR, TWO].as_slice();
    turns.ready(TWO);
    let without_two = turns.parked() == [FOUR].as_slice();
    turns.ready(FOUR);
    Ok([without_one, without_two, turns.parked().is_empty()])
}

#[test]
fn the_last_parked_link_takes_the_place_of_one_that_is_ready(rt: HostRuntime) {
    assert_eq!(rt; left(rt.alloc()), Ok([true; 3]));
}

#[test]
fn links_take_turns(rt: HostRuntime) {
    assert_eq!(rt;
        followers(rt.alloc()),
        Ok([Some(TWO), Some(FOUR), None, Some(TWO)])
    );
}

#[test]
fn a_link_is_parked_until_it_is_ready(rt: HostRuntime) {
    assert!(rt; nobody(rt.alloc()).is_none() && parked(rt.alloc()) == Ok((true, 0)));
}
