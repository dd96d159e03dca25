//! What a reference refers to.
ghost use Rattle.std.specs.Prelude.{◌≡◌, false, nat_lt, if◌then◌else◌, Some, None, Ok, MatchOption, IfOk, IfErr};
ghost use Rattle.mk_scenario_keys.specs.Tests.{IsFaultOf};
ghost use Rattle.mk_scenario.specs.References as references;
ghost use Rattle.mk_scenario.specs.inner.References.{IsAround};

use crate::groups::sim_of_id;
use crate::names::Names;
use crate::parts::{Group, Place};
use crate::paths::path_and;
use mk_base::Text;
use mk_scenario_keys::{ScenarioFault, spelled};
use std::alloc::Global;

// The most digits of an index.
const MOST_DIGITS: usize = 9;

// What the text refers to, among simulators of these ids and groups, of those ids.
#[tactic(auto, unfolding(crate::specs::References::place_of))]
pub fn place_of(
    alloc: Global,
    sims: &Names,
    ids: &Names,
    groups: &[Group],
    path: &Text,
    text: &Text,
) -> Result<Place, ScenarioFault>
    requires { ids.now ≡ references.group_ids groups.now }
    ensures ok { IfOk result (λ place. references.place_of sims.now groups.now path.now text.now
        ≡ Ok place) }
    ensures refused { IfErr result
        (λ e. IsFaultOf (references.place_of sims.now groups.now path.now text.now) e) }
{
    match around_point(text.as_str()) {
        Some((sim, eid)) => entity_of(alloc, sims, path, sim, eid),
        None => in_group(alloc, ids, groups, path, text),
    }
}

// What stands before and after the first point; none exactly where the text has no point.
#[tactic(auto, using(crate::proofs::Placing::any_lies))]
fn around_point(text: &str) -> Option<(&str, &str)>
    ensures { MatchOption result (references.has_byte 46 text.now
        ≡ false) (λ x. IsAround 46 text.now x.0.now x.1.now) }
{
    text.split_once('.')
}

// What stands before and after the first opening bracket; none exactly where the text has none.
#[tactic(auto, using(crate::proofs::Placing::any_lies))]
fn around_bracket(text: &str) -> Option<(&str, &str)>
    ensures { MatchOption result (references.has_byte 91 text.now
        ≡ false) (λ x. IsAround 91 text.now x.0.now x.1.now) }
{
    text.split_once('[')
}

// The entity of this simulator and eid.
fn entity_of(
    alloc: Global,
    sims: &Names,
    path: &Text,
    sim: &str,
    eid: &str,
) -> Result<Place, ScenarioFault>
    ensures ok { IfOk result (λ place. references.entity_of sims.now path.now sim.now eid.now
        ≡ Ok place) }
    ensures refused { IfErr result
        (λ e. IsFaultOf (references.entity_of sims.now path.now sim.now eid.now) e) }
{
    let no = sim_of_id(alloc, sims, path, sim)?;
    Ok(Place::Full(no, Text::of(alloc, eid)?))
}

// What a text without a point refers to.
fn in_group(
    alloc: Global,
    ids: &Names,
    groups: &[Group],
    path: &Text,
    text: &Text,
) -> Result<Place, ScenarioFault>
    requires { ids.now ≡ references.group_ids groups.now }
    ensures ok { IfOk result (λ place. references.in_group groups.now path.now text.now
        ≡ Ok place) }
    ensures refused { IfErr result
        (λ e. IsFaultOf (references.in_group groups.now path.now text.now) e) }
{
    match around_bracket(text.as_str()) {
        Some((id, rest)) => {
            if ends_with_bracket(text.bytes()) {
                entity_at(
                    alloc,
                    ids,
                    groups,
                    path,
                    text,
                    id,
                    but_last(rest.as_bytes()),
                )
            } else {
                whole(alloc, ids, path, text)
            }
        }
        None => whole(alloc, ids, path, text),
    }
}

fn ends_with_bracket(text: &[u8]) -> bool
    ensures { result ≡ references.ends_with 93 text.now }
{
    match text {
        [.., last] => *last == b']',
        [] => false,
    }
}

fn but_last(text: &[u8]) -> &[u8]
    ensures { result.now ≡ references.but_last text.now }
{
    match text {
        [first @ .., _] => first,
        [] => text,
    }
}

// The entity of this group, at the index that these digits of the text spell.
fn entity_at(
    alloc: Global,
    ids: &Names,
    groups: &[Group],
    path: &Text,
    text: &Text,
    id: &str,
    digits: &[u8],
) -> Result<Place, ScenarioFault>
    requires { ids.now ≡ references.group_ids groups.now }
    ensures ok { IfOk result
        (λ place. references.entity_at groups.now path.now text.now id.now digits.now ≡ Ok place) }
    ensures refused { IfErr result
        (λ e. IsFaultOf (references.entity_at groups.now path.now text.now id.now digits.now) e) }
{
    let n = group_of_id(alloc, ids, path, id)?;
    match index_below(num_at(groups, n), digits) {
        Some(i) => Ok(Place::One(n, i)),
        None => {
            let (path, text) = path_and(alloc, path, text.as_str())?;
            Err(ScenarioFault::OutOfRange(path, text))
        }
    }
}

// The group that the text is the id of.
fn whole(alloc: Global, ids: &Names, path: &Text, text: &Text) -> Result<Place, ScenarioFault>
    ensures ok { IfOk result (λ place. references.whole ids.now path.now text.now ≡ Ok place) }
    ensures refused { IfErr result (λ e. IsFaultOf (references.whole ids.now path.now text.now) e) }
{
    Ok(Place::Whole(group_of_id(alloc, ids, path, text.as_str())?))
}

// The group of this id, by its place among these.
fn group_of_id(alloc: Global, ids: &Names, path: &Text, id: &str) -> Result<u32, ScenarioFault>
    ensures ok { IfOk result (λ n. references.group_of_id ids.now path.now id.now ≡ Ok n) }
    ensures refused { IfErr result
        (λ e. IsFaultOf (references.group_of_id ids.now path.now id.now) e) }
{
    match ids.place_of(id) {
        Some(n) => Ok(n),
        None => {
            let (path, id) = path_and(alloc, path, id)?;
            Err(ScenarioFault::UnknownGroup(path, id))
        }
    }
}

// How many entities the group has; none where there is no such group.
fn num_at(groups: &[Group], n: u32) -> u32
    ensures { result ≡ references.num_at groups.now n }
{
    match groups.get(n as usize) {
        Some(group) => group.num,
        None => 0,
    }
}

// The index that these digits spell, below this number.
fn index_below(num: u32, digits: &[u8]) -> Option<u32>
    ensures { result ≡ references.index_below num digits.now }
{
    match spelled(MOST_DIGITS, digits) {
        Some(i) => below(num, i),
        None => None,
    }
}

fn below(num: u32, i: u64) -> Option<u32>
    ensures { result ≡ (if nat_lt i num then Some i else None) }
{
    if i < u64::from(num) {
        Some(i as u32)
    } else {
        None
    }
}

// How many entities there are at a place.
pub fn size_of(groups: &[Group], place: &Place) -> u32
    ensures { result ≡ references.size_of groups.now place.now }
{
    match place {
        Place::Whole(n) => num_at(groups, *n),
        Place::One(_, _) => 1,
        Place::Full(_, _) => 1,
    }
}
