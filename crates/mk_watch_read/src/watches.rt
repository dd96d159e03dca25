//! From a text to the watches that it says.
ghost use Rattle.std.specs.Prelude.{◌≡◌, IfOk, IfErr, Ok, length, codes};
ghost use Rattle.mk_plan.specs.declared.Plan.{Plan};
ghost use Rattle.mk_plan.specs.Plans.{IsValidPlan};
ghost use Rattle.mk_plan_names.specs.Names.{AreNamesOf};
ghost use Rattle.mk_scenario_keys.specs.Tests.{item_in};
ghost use Rattle.mk_watch_read.specs.Rules.{names_in};
ghost use Rattle.mk_watch_read.specs.Watches.{AreInside, IsFaultOf};
ghost use Rattle.mk_watch_read.specs.Watches as watches;

use crate::fault::WatchFault;
use crate::known::{Table, first_unknown};
use crate::rules::Rules;
use mk_base::{Json, List, Text};
use mk_plan::Plan;
use mk_plan_names::Names;
use mk_scenario_keys::{item_in, key_in, required_tables, required_text};
use mk_scenario_toml::{TomlFault, read_toml};
use std::alloc::Global;

// How many watches there may be.
const MOST_WATCHES: usize = 1000;

/// What is watched: an attribute of an entity, by its number in the plan, and the rule for it, by its
/// place in the store; both from 0.
#[derive(Drop)]
pub struct Watch {
    pub entity: u32,
    pub attr: Text,
    pub rule: u32,
}

/// The watches that a text of TOML says, over the entities of a plan and these rules, or the first
/// test that it fails: that it is TOML, that it has no key but `watch`, which is a list of 1 to
/// 1,000 tables; then of each table in order: that it has no key but `entity`, `attr` and `rule`,
/// which are texts; that the rule is there, and the entity by its full id. Or `Mem`, want of memory.
pub fn read_watches(
    alloc: Global,
    bytes: &[u8],
    plan: &Plan,
    rules: &Rules,
) -> Result<List<Watch>, WatchFault>
    requires { IsValidPlan plan.now }
    ensures ok { IfOk result (λ ws. watches.watches_of plan.now (names_in rules.now) bytes.now
        ≡ Ok ws) }
    ensures refused { IfErr result
        (λ e. IsFaultOf (watches.watches_of plan.now (names_in rules.now) bytes.now) e) }
    ensures inside { IfOk result (λ ws. AreInside plan.now (length (names_in rules.now)) ws) }
{
    match read_toml(alloc, bytes) {
        Ok(document) => {
            let names = Names::new(alloc, plan)?;
            document_watches(alloc, &names, rules, &document)
        }
        Err(TomlFault::NotToml) => Err(WatchFault::NotToml),
        Err(TomlFault::Mem) => Err(WatchFault::Mem),
    }
}

// The watches that a document says.
fn document_watches(
    alloc: Global,
    names: &Names,
    rules: &Rules,
    document: &Json,
) -> Result<List<Watch>, WatchFault>
    ensures ok { IfOk result (λ ws. (P : Plan) → AreNamesOf P names.now
        → watches.document_watches P (names_in rules.now) document.now ≡ Ok ws) }
    ensures refused { IfErr result (λ e. (P : Plan) → AreNamesOf P names.now
        → IsFaultOf (watches.document_watches P (names_in rules.now) document.now) e) }
{
    if let Some(key) = first_unknown(Table::Top, document) {
        return Err(WatchFault::UnknownKey(key.copy()?));
    }
    let tables = required_tables(alloc, MOST_WATCHES, "watch", document)?;
    watches_in(alloc, names, rules, tables)
}

// The watches of these tables.
fn watches_in(
    alloc: Global,
    names: &Names,
    rules: &Rules,
    tables: &[Json],
) -> Result<List<Watch>, WatchFault>
    ensures ok { IfOk result (λ ws. (P : Plan) → AreNamesOf P names.now
        → watches.watches_in P (names_in rules.now) tables.now ≡ Ok ws) }
    ensures refused { IfErr result (λ e. (P : Plan) → AreNamesOf P names.now
        → IsFaultOf (watches.watches_in P (names_in rules.now) tables.now) e) }
{
    let mut found = List::new(alloc);
    for (i, table) in tables.iter().enumerate() {
        found.push(watch_in(alloc, names, rules, i, table)?)?;
    }
    Ok(found)
}

// The watch of the table at a place.
fn watch_in(
    alloc: Global,
    names: &Names,
    rules: &Rules,
    i: usize,
    table: &Json,
) -> Result<Watch, WatchFault>
    ensures ok { IfOk result (λ w. (P : Plan) → AreNamesOf P names.now
        → watches.watch_at P (names_in rules.now) (item_in (codes "watch") i) table.now ≡ Ok w) }
    ensures refused { IfErr result (λ e. (P : Plan) → AreNamesOf P names.now
        → IsFaultOf (watches.watch_at P (names_in rules.now) (item_in (codes "watch") i)
        table.now) e) }
{
    let path = item_in(alloc, &Text::of(alloc, "watch")?, i)?;
    watch_at(alloc, names, rules, &path, table)
}

// The watch of the table of this path.
fn watch_at(
    alloc: Global,
    names: &Names,
    rules: &Rules,
    path: &Text,
    table: &Json,
) -> Result<Watch, WatchFault>
    ensures ok { IfOk result (λ w. (P : Plan) → AreNamesOf P names.now
        → watches.watch_at P (names_in rules.now) path.now table.now ≡ Ok w) }
    ensures refused { IfErr result (λ e. (P : Plan) → AreNamesOf P names.now
        → IsFaultOf (watches.watch_at P (names_in rules.now) path.now table.now) e) }
{
    if let Some(key) = first_unknown(Table::Watch, table) {
        return Err(WatchFault::UnknownKey(key_in(alloc, path, key.as_str())?));
    }
    let entity = required_text(alloc, path, "entity", table)?;
    let attr = required_text(alloc, path, "attr", table)?;
    let rule = required_text(alloc, path, "rule", table)?;
    watch_named(alloc, names, rules, path, entity, attr, rule)
}

// The watch of these texts in the table of this path.
fn watch_named(
    alloc: Global,
    names: &Names,
    rules: &Rules,
    path: &Text,
    entity: &Text,
    attr: &Text,
    rule: &Text,
) -> Result<Watch, WatchFault>
    ensures ok { IfOk result (λ w. (P : Plan) → AreNamesOf P names.now
        → watches.watch_named P (names_in rules.now) path.now entity.now attr.now rule.now ≡ Ok w) }
    ensures refused { IfErr result (λ e. (P : Plan) → AreNamesOf P names.now
        → IsFaultOf (watches.watch_named P
        (names_in rules.now) path.now entity.now attr.now rule.now) e) }
{
    match rules.find(rule.as_str()) {
        None => Err(WatchFault::NoRule(key_in(alloc, path, "rule")?, rule.copy()?)),
        Some(place) => match names.find(entity) {
            None => Err(WatchFault::NoEntity(key_in(alloc, path, "entity")?, entity.copy()?)),
            Some(number) => Ok(Watch {
                entity: number,
                attr: attr.copy()?,
                rule: place,
            }),
        },
    }
}
