//! A reply's entities, depth first.
ghost use Rattle.std.specs.Prelude.{◌≡◌, ◌++◌, [], false, filter_map, flat_map, IfOk, OnOk};
ghost use Rattle.std.specs.List.{cons_option};
ghost use Rattle.mk_entities.specs.Descriptions.{described, eid_in, family, texts_under};

use crate::trees::{children_of, copied, eid_of, list_under};
use mk_base::{Json, List, Mem, Text};
use std::alloc::Global;

// An entity as a reply describes it: its eid, if it has a proper one and its children are a list; its type, if it is a
// text; its related entities' eids, if they are a list of texts; its children's eids, of those that have one; whether
// it is a child itself.
#[derive(Drop)]
pub struct Described {
    pub eid: Option<Text>,
    pub kind: Option<Text>,
    pub rel: Option<List<Text>>,
    pub children: List<Text>,
    pub is_child: bool,
}

// The descriptions in these trees, each before those of its children.
pub fn families(alloc: Global, trees: &[Json]) -> Result<List<Described>, Mem>
    ensures { IfOk result (λ found. found ≡ flat_map (family false) trees.now) }
{
    let mut found = List::new(alloc);
    for tree in trees {
        put_family(alloc, tree, false, &mut found)?;
    }
    Ok(found)
}

// Puts what the tree describes, and then what is under it.
fn put_family(
    alloc: Global,
    tree: &Json,
    is_child: bool,
    into: &mut List<Described>,
) -> Result<(), Mem>
    ensures { OnOk result (into.new ≡ into.old ++ family is_child tree.now) }
{
    into.push(describe(alloc, tree, is_child)?)?;
    let children = children_of(tree);
    for child in children {
        put_family(alloc, child, true, into)?;
    }
    Ok(())
}

fn describe(alloc: Global, tree: &Json, is_child: bool) -> Result<Described, Mem>
    ensures { IfOk result (λ m. m ≡ described is_child tree.now) }
{
    let eid = copied(eid_of(tree))?;
    let kind = copied(tree.text_under("type"))?;
    let rel = texts_under(alloc, tree, "rel")?;
    let children = eids_of(alloc, children_of(tree))?;
    Ok(Described {
        eid,
        kind,
        rel,
        children,
        is_child,
    })
}

// The texts of the list under this name, none where the member is missing or null.
fn texts_under(alloc: Global, tree: &Json, name: &str) -> Result<Option<List<Text>>, Mem>
    ensures { IfOk result (λ ts. ts ≡ texts_under name.now tree.now) }
{
    match list_under(tree, name) {
        Some(items) => Json::texts_of(alloc, items),
        None => Ok(None),
    }
}

fn eids_of(alloc: Global, trees: &[Json]) -> Result<List<Text>, Mem>
    ensures { IfOk result (λ ts. ts ≡ filter_map eid_in trees.now) }
{
    let mut found = List::new(alloc);
    for tree in trees {
        put_eid(tree, &mut found)?;
    }
    Ok(found)
}

fn put_eid(tree: &Json, into: &mut List<Text>) -> Result<(), Mem>
    ensures { OnOk result (into.new ≡ into.old ++ cons_option (eid_in tree.now) []) }
{
    if let Some(eid) = eid_of(tree) {
        into.push(eid.copy()?)?;
    }
    Ok(())
}
