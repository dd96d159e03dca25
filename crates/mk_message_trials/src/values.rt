//! Each call once with ample memory, on values from the definitions of tiered time and of JSON.

use mk_base::{Json, List, Mem, Members, Text, Tier, Via, put, put_signed, put_unsigned};
use std::alloc::Global;

fn are_tiers_right() -> bool {
    let at = Tier { time: 3, tier: 2 };
    let later = Tier { time: 4, tier: 0 };
    at.after(Via::Plain) == at
        && at.after(Via::Shift(1)) == later
        && at.after(Via::Weak) == Tier { time: 3, tier: 3 }
        && at.is_up_to(at)
        && at.is_up_to(later)
        && !later.is_up_to(at)
}

#[test]
fn tiered_times_are_delayed_and_ordered(rt: HostRuntime) {
    assert!(rt; are_tiers_right());
}

// The list 7, 2, 3, each number put by another call.
fn changed(alloc: Global) -> Result<List<u32>, Mem> {
    let mut list = List::new(alloc);
    list.push(1)?;
    list.push(3)?;
    list.insert(1, 2)?;
    list.set(0, 7);
    Ok(list)
}

fn is_seven_two_three(list: &List<u32>) -> bool {
    list.len() == 3
        && !list.is_empty()
        && list.get(0) == Some(&7)
        && list.get(3).is_none()
        && *list.at(1) == 2
}

// The last number, and whether 7 and 2 are left.
fn taken_apart(list: List<u32>) -> (Option<u32>, bool) {
    let mut list = list;
    let last = list.pop();
    let kept = List::from_vec(list.into_vec());
    (last, kept.as_slice() == [7, 2].as_slice())
}

fn is_list_right(alloc: Global) -> bool {
    match changed(alloc) {
        Ok(list) => is_seven_two_three(&list) && taken_apart(list) == (Some(3), true),
        Err(_) => false,
    }
}

#[test]
fn lists_are_changed_in_place(rt: HostRuntime) {
    assert!(rt; is_list_right(rt.alloc()));
}

fn put_member(
    alloc: Global,
    members: &mut Members<u32>,
    name: &str,
    value: u32,
) -> Result<(), Mem> {
    let name = Text::of(alloc, name)?;
    members.put(name, value)
}

// Members put out of order, and one twice.
fn members(alloc: Global) -> Result<Members<u32>, Mem> {
    let mut members = Members::new(alloc);
    for (name, value) in [("b", 1), ("a", 2), ("c", 3), ("b", 4)] {
        put_member(alloc, &mut members, name, value)?;
    }
    members.trim();
    Ok(members)
}

fn are_ordered(members: &Members<u32>) -> bool {
    members.len() == 3
        && !members.is_empty()
        && members.entries().len() == 3
        && members.get("b") == Some(&4)
        && members.get("d").is_none()
        && members.name_at(0).as_str() == "a"
        && *members.value_at(0) == 2
}

fn are_members_right(alloc: Global) -> bool {
    match members(alloc) {
        Ok(members) => are_ordered(&members),
        Err(_) => false,
    }
}

#[test]
fn members_stand_in_byte_order_of_their_names(rt: HostRuntime) {
    assert!(rt; are_members_right(rt.alloc()));
}

// A list of a whole number and of one that is none.
fn items(alloc: Global) -> Result<Json, Mem> {
    let mut items = List::new(alloc);
    items.push(Json::Whole(5))?;
    items.push(Json::Odd)?;
    Ok(Json::List(items))
}

fn put_tree(members: &mut Members<Json>, name: Text, tree: Json) -> Result<(), Mem> {
    members.put(name, tree)
}

fn put_items(alloc: Global, members: &mut Members<Json>) -> Result<(), Mem> {
    let items = items(alloc)?;
    let name = Text::of(alloc, "x")?;
    put_tree(members, name, items)
}

fn put_truth(alloc: Global, members: &mut Members<Json>) -> Result<(), Mem> {
    let name = Text::of(alloc, "y")?;
    put_tree(members, name, Json::Bool(true))
}

// An object of that list and of a truth value.
fn object(alloc: Global) -> Result<Json, Mem> {
    let mut members = Members::new(alloc);
    put_items(alloc, &mut members)?;
    put_truth(alloc, &mut members)?;
    Ok(Json::Object(members))
}

fn truth_in(tree: &Json) -> Option<bool> {
    tree.member("y")?.as_bool()
}

fn count_in(tree: &Json) -> Option<usize> {
    Some(tree.member("x")?.as_list()?.len())
}

fn count_of(tree: &Json) -> Option<usize> {
    Some(tree.as_object()?.len())
}

fn has_members(tree: &Json) -> bool {
    truth_in(tree) == Some(true)
        && count_in(tree) == Some(2)
        && count_of(tree) == Some(2)
        && tree.member("z").is_none()
}

fn is_object_alone(tree: &Json) -> bool {
    tree.is_object()
        && !tree.is_null()
        && !tree.is_whole()
        && tree.as_text().is_none()
        && tree.nests_within(2)
        && !tree.nests_within(1)
}

// Whether a copy of the tree is that object.
fn is_copied(alloc: Global, tree: &Json) -> bool {
    match tree.copy(alloc) {
        Ok(copy) => has_members(&copy) && is_object_alone(&copy),
        Err(_) => false,
    }
}

fn is_tree_right(alloc: Global) -> bool {
    match object(alloc) {
        Ok(tree) => is_copied(alloc, &tree),
        Err(_) => false,
    }
}

fn is_text_copied(text: &Text) -> bool {
    match text.copy() {
        Ok(copy) => copy.as_str() == "ä" && copy.bytes().len() == 2,
        Err(_) => false,
    }
}

fn is_text_right(alloc: Global) -> bool {
    match Text::of(alloc, "ä") {
        Ok(text) => is_text_copied(&text),
        Err(_) => false,
    }
}

#[test]
fn trees_are_looked_into_and_copied(rt: HostRuntime) {
    assert!(rt; is_tree_right(rt.alloc()) && Json::Whole(5).as_whole() == Some(5));
}

#[test]
fn texts_are_copied(rt: HostRuntime) {
    assert!(rt; is_text_right(rt.alloc()));
}

// A text and two numbers, one behind the other.
fn put_three(out: &mut Vec<u8>) -> Result<(), Mem> {
    put(out, "ä ")?;
    put_unsigned(out, 18446744073709551615)?;
    put_signed(out, -9223372036854775808)
}

fn are_three_put(alloc: Global) -> bool {
    let mut out = Vec::new(alloc);
    match put_three(&mut out) {
        Ok(()) => out.as_slice() == "ä 18446744073709551615-9223372036854775808".as_bytes(),
        Err(_) => false,
    }
}

#[test]
fn texts_and_numbers_are_appended(rt: HostRuntime) {
    assert!(rt; are_three_put(rt.alloc()));
}
