//! What the members of metadata are.
ghost use Rattle.std.specs.Prelude.{◌≡◌, false, IfOk, option_and_then};
ghost use Rattle.mk_base.specs.Trees.{bool_in, member, texts_in};
ghost use Rattle.mk_meta.specs.Metadata.{hybrid_texts, unless_missing};

use mk_base::{Json, List, Mem, SimKind, Text};
use std::alloc::Global;

// The truth value under this name.
pub fn bool_at(tree: &Json, name: &str) -> Option<bool>
    ensures { result ≡ option_and_then bool_in (member name.now tree.now) }
{
    match tree.member(name) {
        Some(value) => value.as_bool(),
        None => None,
    }
}

// The truth value under this name, false where there is no such member.
pub fn bool_or_false(tree: &Json, name: &str) -> Option<bool>
    ensures { result ≡ unless_missing false bool_in (member name.now tree.now) }
{
    match tree.member(name) {
        Some(value) => value.as_bool(),
        None => Some(false),
    }
}

fn texts_of(alloc: Global, tree: &Json) -> Result<Option<List<Text>>, Mem>
    ensures { IfOk result (λ ts. ts ≡ texts_in tree.now) }
{
    match tree.as_list() {
        Some(items) => Json::texts_of(alloc, items.as_slice()),
        None => Ok(None),
    }
}

// The list of texts under this name.
pub fn texts_at(alloc: Global, tree: &Json, name: &str) -> Result<Option<List<Text>>, Mem>
    ensures { IfOk result (λ ts. ts ≡ option_and_then texts_in (member name.now tree.now)) }
{
    match tree.member(name) {
        Some(value) => texts_of(alloc, value),
        None => Ok(None),
    }
}

// The list of texts under this name, empty where there is no such member; always empty unless the simulator is hybrid.
pub fn hybrid_texts(
    alloc: Global,
    kind: SimKind,
    tree: &Json,
    name: &str,
) -> Result<Option<List<Text>>, Mem>
    ensures { IfOk result (λ ts. ts ≡ hybrid_texts kind name.now tree.now) }
{
    match kind {
        SimKind::TimeBased => Ok(Some(List::new(alloc))),
        SimKind::EventBased => Ok(Some(List::new(alloc))),
        SimKind::Hybrid => match tree.member(name) {
            Some(value) => texts_of(alloc, value),
            None => Ok(Some(List::new(alloc))),
        },
    }
}
