//! Names of a small plan, found and not found.

use crate::common::{checked, lending_plan};
use mk_base::{SimNo, Text};
use mk_plan_check::PlanFault;
use mk_plan_names::Names;
use std::alloc::Global;

fn names_of(alloc: Global) -> Result<Names, PlanFault> {
    let plan = checked(alloc, lending_plan(alloc)?)?;
    Ok(Names::new(alloc, &plan)?)
}

// Full ids, the entities that have them, an attribute, and whether a connection takes that of the entity.
type Id = (&'static str, Option<u32>, &'static str, bool);

const IDS: [Id; 7] = [
    ("A-0.0", Some(0), "out", true),
    ("A-0.0", Some(0), "in", false),
    ("A-0.1", Some(1), "out", false),
    ("B-0.a.b", Some(3), "out", false),
    ("B-0.a", None, "", false),
    ("A-0", None, "", false),
    ("", None, "", false),
];

// Whether an id is this entity's, that entity's full id is this one, and the attribute is taken of it or not.
fn is_found(names: &Names, id: &Text, attr: &Text, row: &Id) -> bool {
    match names.find(id) {
        Some(number) => {
            Some(number) == row.1
                && names.full_id(number) == row.0
                && names.gives(number, attr) == row.3
        }
        None => row.1.is_none(),
    }
}

fn is_found_with(alloc: Global, names: &Names, id: &Text, row: &Id) -> bool {
    match Text::of(alloc, row.2) {
        Ok(attr) => is_found(names, id, &attr, row),
        Err(_) => false,
    }
}

fn is_right(alloc: Global, names: &Names, row: &Id) -> bool {
    match Text::of(alloc, row.0) {
        Ok(id) => is_found_with(alloc, names, &id, row),
        Err(_) => false,
    }
}

// How many ids are found so, up to the first that isn't.
fn count_found(alloc: Global, names: &Names) -> usize {
    for (place, row) in IDS.iter().enumerate() {
        if !is_right(alloc, names, row) {
            return place;
        }
    }
    IDS.len()
}

fn are_found(alloc: Global) -> bool {
    match names_of(alloc) {
        Ok(names) => {
            count_found(alloc, &names) == 7
                && names.has_pair(SimNo(0), SimNo(1))
                && !names.has_pair(SimNo(1), SimNo(0))
        }
        Err(_) => false,
    }
}

#[test]
fn parts_are_found_by_their_names(rt: HostRuntime) {
    assert!(rt; are_found(rt.alloc()));
}
