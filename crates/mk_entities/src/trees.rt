//! What the members of an entity's description are.
ghost use Rattle.std.specs.Prelude.{◌≡◌, [], unwrap_or, IfOk, option_map};
ghost use Rattle.mk_base.specs.Trees.{items_in};
ghost use Rattle.mk_entities.specs.Descriptions.{children_in, eid_in, if_eid, list_in, list_under};

use mk_base::{Json, Mem, Text, is_eid};

// The items of a list, none of null.
fn list_of(tree: &Json) -> Option<&[Json]>
    ensures { option_map (λ l. l.now) result ≡ list_in tree.now }
{
    match tree {
        Json::Null => Some(&[]),
        Json::Bool(_) => None,
        Json::Whole(_) => None,
        Json::Odd => None,
        Json::Text(_) => None,
        Json::List(items) => Some(items.as_slice()),
        Json::Object(_) => None,
    }
}

// The items of the list under this name, none where the member is missing or null.
pub fn list_under<'a>(tree: &'a Json, name: &str) -> Option<&'a [Json]>
    ensures { option_map (λ l. l.now) result ≡ list_under name.now tree.now }
{
    match tree.member(name) {
        Some(value) => list_of(value),
        None => Some(&[]),
    }
}

// What is described under `children`, nothing where it is no list.
pub fn children_of(tree: &Json) -> &[Json]
    ensures { result.now ≡ children_in tree.now }
{
    match list_under(tree, "children") {
        Some(children) => children,
        None => &[],
    }
}

fn if_eid(text: &Text) -> Option<&Text>
    ensures { option_map (λ t. t.now) result ≡ if_eid text.now }
{
    if is_eid(text.bytes()) {
        Some(text)
    } else {
        None
    }
}

// The eid of what the tree describes.
pub fn eid_of(tree: &Json) -> Option<&Text>
    ensures { option_map (λ t. t.now) result ≡ eid_in tree.now }
{
    let Some(_) = list_under(tree, "children") else {
        return None;
    };
    match tree.text_under("eid") {
        Some(text) => if_eid(text),
        None => None,
    }
}

pub fn copied(text: Option<&Text>) -> Result<Option<Text>, Mem>
    ensures { IfOk result (λ t. t ≡ option_map (λ s. s.now) text.entry) }
{
    match text {
        Some(text) => Ok(Some(text.copy()?)),
        None => Ok(None),
    }
}
