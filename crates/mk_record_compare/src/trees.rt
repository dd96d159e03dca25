//! Whether two trees are the same.
ghost use Rattle.std.specs.Prelude.{◌≡◌};
ghost use Rattle.mk_plan_same.specs.Decisions.{Decides};

use mk_base::{Json, List, Members, Text};
use mk_plan_same::Same;

/// Whether two trees are the same. Of a number that isn't whole a tree keeps no value, so any two of them are.
#[cycle(same)]
pub fn same_tree(one: &Json, other: &Json) -> bool
    ensures { Decides result (one.now ≡ other.now) }
{
    match one {
        Json::Null => other.is_null(),
        Json::Bool(b) => same_bool(*b, other),
        Json::Whole(n) => same_whole(*n, other),
        Json::Odd => is_odd(other),
        Json::Text(text) => same_text_tree(text, other),
        Json::List(items) => match other.as_list() {
            Some(others) => same_items(items, others),
            None => false,
        },
        Json::Object(members) => match other.as_object() {
            Some(others) => same_members(members, others),
            None => false,
        },
    }
}

fn same_bool(b: bool, other: &Json) -> bool
    ensures { Decides result (Json.Bool b ≡ other.now) }
{
    match other.as_bool() {
        Some(c) => b == c,
        None => false,
    }
}

fn same_whole(n: i128, other: &Json) -> bool
    ensures { Decides result (Json.Whole n ≡ other.now) }
{
    match other.as_whole() {
        Some(m) => n == m,
        None => false,
    }
}

fn is_odd(tree: &Json) -> bool
    ensures { Decides result (Json.Odd ≡ tree.now) }
{
    match tree {
        Json::Null => false,
        Json::Bool(_) => false,
        Json::Whole(_) => false,
        Json::Odd => true,
        Json::Text(_) => false,
        Json::List(_) => false,
        Json::Object(_) => false,
    }
}

fn same_text_tree(text: &Text, other: &Json) -> bool
    ensures { Decides result (Json.Text text.now ≡ other.now) }
{
    match other.as_text() {
        Some(another) => text.same(another),
        None => false,
    }
}

#[cycle(same)]
pub fn same_items(items: &List<Json>, others: &List<Json>) -> bool
    ensures { Decides result (items.now ≡ others.now) }
{
    if items.len() != others.len() {
        return false;
    }
    let mut place = 0;
    for item in items.as_slice() {
        if !same_tree(item, others.at(place)) {
            return false;
        }
        place += 1;
    }
    true
}

#[cycle(same)]
fn same_members(members: &Members<Json>, others: &Members<Json>) -> bool
    ensures { Decides result (members.now ≡ others.now) }
{
    if members.len() != others.len() {
        return false;
    }
    let mut place = 0;
    let entries = members.entries();
    for (name, value) in entries {
        if !name.same(others.name_at(place)) || !same_tree(value, others.value_at(place)) {
            return false;
        }
        place += 1;
    }
    true
}
