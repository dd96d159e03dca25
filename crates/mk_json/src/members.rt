//! Members in the order in which they were read, brought into byte order of their names.
ghost use Rattle.std.specs.Prelude.{◌≡◌, IfOk, IsTrue, []};
ghost use Rattle.std.specs.Ordering.{nat_cmp, is_lt};
ghost use Rattle.std.specs.Cmp.Lexicographic.{slice_cmp};
ghost use Rattle.std.specs.List.Sorted.{IsStrictlySortedBy};
ghost use Rattle.std.specs.Map.{keys_of};
ghost use Rattle.mk_json.specs.inner.Gathered.{put_all, named};

use mk_base::{Json, List, Mem, Members, Text};
use std::alloc::Global;
use std::cmp::Ordering;
use std::collections::BTreeMap;

// Up to so many members are put at their places one by one.
const FEW: usize = 32;

// Of members of one name the last stays.
pub fn gathered(alloc: Global, all: List<(Text, Json)>) -> Result<Members<Json>, Mem>
    ensures { IfOk result (λ ms. ms ≡ put_all [] all) }
{
    if rises(all.as_slice()) {
        return Ok(in_place(all));
    }
    if all.len() <= FEW {
        put_few(alloc, all)
    } else {
        put_many(alloc, all)
    }
}

fn in_place(all: List<(Text, Json)>) -> Members<Json>
    requires { IsStrictlySortedBy (slice_cmp nat_cmp) (keys_of all) }
    ensures { result ≡ all }
{
    let mut all = all;
    all.trim();
    Members::from_sorted(all)
}

// Whether each name is above the one before it.
fn rises(all: &[(Text, Json)]) -> bool
    ensures { IsTrue result → IsStrictlySortedBy (slice_cmp nat_cmp) (keys_of all.now) }
{
    let mut i = all.len();
    while i > 1 {
        i -= 1;
        let one = &all[i - 1];
        let other = &all[i];
        if !is_below(&one.0, &other.0) {
            return false;
        }
    }
    true
}

fn is_below(one: &Text, other: &Text) -> bool
    ensures { result ≡ is_lt (slice_cmp nat_cmp one.now other.now) }
{
    match one.bytes().cmp(other.bytes()) {
        Ordering::Less => true,
        Ordering::Equal | Ordering::Greater => false,
    }
}

fn put_few(alloc: Global, all: List<(Text, Json)>) -> Result<Members<Json>, Mem>
    ensures { IfOk result (λ ms. ms ≡ put_all [] all) }
{
    let mut found = Members::new(alloc);
    for (name, tree) in all.into_vec() {
        found.put(name, tree)?;
    }
    Ok(found)
}

fn put_many(alloc: Global, all: List<(Text, Json)>) -> Result<Members<Json>, Mem>
    ensures { IfOk result (λ ms. ms ≡ put_all [] all) }
{
    let count = all.len();
    let sorted = in_map(alloc, all)?;
    from_map(alloc, sorted, count)
}

fn in_map(alloc: Global, all: List<(Text, Json)>) -> Result<BTreeMap<String, Json>, Mem>
    ensures { IfOk result (λ m. named m.entries ≡ put_all [] all) }
{
    let mut found = BTreeMap::new(alloc);
    for (name, tree) in all.into_vec() {
        let key = String::from_str(alloc, name.as_str())?;
        found.insert(key, tree)?;
    }
    Ok(found)
}

fn from_map(
    alloc: Global,
    sorted: BTreeMap<String, Json>,
    count: usize,
) -> Result<Members<Json>, Mem>
    ensures { IfOk result (λ ms. ms ≡ named sorted.entries) }
{
    let mut found = List::with_room(alloc, count)?;
    for (name, tree) in sorted {
        found.push((Text::of(alloc, name.as_str())?, tree))?;
    }
    Ok(Members::from_sorted(found))
}
