//! The tables of watches over a journal.
ghost use Rattle.std.specs.Prelude.{◌≡◌, ◌<◌, ◌++◌, ℕ, List, length, map, IfOk, OnOk};
ghost use Rattle.mk_plan.specs.declared.Entry.{Entry};
ghost use Rattle.mk_plan.specs.Plans.{IsValidPlan, RefersInside, eid_of, full_id, owner, sim_count};
ghost use Rattle.mk_plan.specs.Journals.{got, sent};
ghost use Rattle.mk_plan.specs.Sequential.{run_items};
ghost use Rattle.mk_plan.specs.Agreement.{IsFinished};
ghost use Rattle.mk_watch_read.specs.declared.rule.Fold.{Fold};
ghost use Rattle.mk_watch_read.specs.declared.watches.Watch.{Watch};
ghost use Rattle.mk_watch_read.specs.Rules.{folds_in, names_in};
ghost use Rattle.mk_watch_read.specs.Watches.{AreInside};
ghost use Rattle.mk_watch.specs.Values.{rows_of};
ghost use Rattle.mk_watch.specs.Tables.{rows_text, table_text, tables_text, watch_text};
ghost use Rattle.mk_watch.specs.inner.Shares.{AreShares};

use crate::lines::{put_head, put_row, put_total};
use crate::rows::row_of;
use crate::shares::shares_of;
use crate::values::with_number;
use mk_base::{List, Mem, SimNo, Text};
use mk_plan::{Item, Journal, Plan};
use mk_watch_read::{Rule, Rules, Watch};
use std::alloc::Global;

/// The tables of these watches over what each simulator was sent in a journal: for each watch its
/// head, a row for each Step whose inputs have some at the attribute of the entity, with the rule's
/// value of their numbers from the first on, and at the end how many rows there are, and the rule's
/// value of theirs. A value that isn't a whole number from -2^63 to 2^63 - 1 counts as 0. The journal
/// is gone through once; then each watch goes through what its entity's simulator was sent. `Mem` is
/// want of memory.
pub fn write_tables(
    alloc: Global,
    watches: &List<Watch>,
    rules: &Rules,
    plan: &Plan,
    journal: &Journal,
) -> Result<Vec<u8>, Mem>
    requires valid { IsValidPlan plan.now }
    requires inside { AreInside plan.now (length (names_in rules.now)) watches.now }
    ensures { IfOk result (λ text. text.items ≡ tables_text plan.now (names_in rules.now)
        (folds_in rules.now) (sent journal.now.entries) watches.now) }
{
    let shares = shares_of(alloc, plan.sims.len(), journal.entries.as_slice())?;
    let mut out = Vec::new(alloc);
    for watch in watches.as_slice() {
        put_table(&mut out, rules, plan, shares.as_slice(), watch)?;
    }
    Ok(out)
}

// Appends the table of a watch.
fn put_table(
    out: &mut Vec<u8>,
    rules: &Rules,
    plan: &Plan,
    shares: &[Vec<&Item>],
    watch: &Watch,
) -> Result<(), Mem>
    requires references { RefersInside plan.now }
    requires shares { length shares.now ≡ sim_count plan.now }
    requires entity { watch.now.entity < length plan.now.entities }
    requires rule { watch.now.rule < length (names_in rules.now) }
    ensures { (J : List Entry)
        → AreShares (sim_count plan.now) J (map (λ s. map (λ x. x.now) s.items) shares.now)
        → OnOk result (out.new.items ≡ out.old.items ++ watch_text plan.now (names_in rules.now)
        (folds_in rules.now) (sent J) watch.now) }
{
    let rule = rules.at(watch.rule);
    let sim = plan.owner(watch.entity);
    put_watched(
        out,
        plan,
        shares[sim.0 as usize].as_slice(),
        watch,
        sim,
        rule,
    )
}

// Appends the table of a watch of this simulator's entity by this rule.
fn put_watched(
    out: &mut Vec<u8>,
    plan: &Plan,
    items: &[&Item],
    watch: &Watch,
    sim: SimNo,
    rule: &Rule,
) -> Result<(), Mem>
    requires entity { watch.now.entity < length plan.now.entities }
    ensures { sim.0 ≡ owner plan.now watch.now.entity → OnOk result (out.new.items ≡ out.old.items
        ++ table_text (full_id plan.now watch.now.entity) watch.now.attr rule.now.name rule.now.fold
        (rows_of rule.now.fold (eid_of plan.now watch.now.entity) watch.now.attr
        (map (λ x. x.now) items.now))) }
{
    let eid = &plan.entities.at(watch.entity as usize).eid;
    put_head(out, plan, sim, eid, &watch.attr, &rule.name)?;
    put_rows(out, rule, eid, &watch.attr, items)
}

// Appends the rows and the last line of a table.
fn put_rows(
    out: &mut Vec<u8>,
    rule: &Rule,
    eid: &Text,
    attr: &Text,
    items: &[&Item],
) -> Result<(), Mem>
    ensures { OnOk result (out.new.items ≡ out.old.items ++ rows_text rule.now.fold
        (rows_of rule.now.fold eid.now attr.now (map (λ x. x.now) items.now))) }
{
    let mut count: u64 = 0;
    let mut total = None;
    for item in items {
        if let Some(row) = row_of(rule, eid, attr, item) {
            put_row(out, &row)?;
            count += 1;
            total = with_number(rule, total, row.value);
        }
    }
    put_total(out, count, total)
}

/// The tables of a finished journal are those of what sequential execution over its messages sends
/// each simulator.
pub fn tables_are_sequential(plan: &Plan)
    requires { IsValidPlan plan.now }
    ensures { (J : List Entry) → IsFinished plan.now J
        → (names : List (List ℕ)) → (folds : List Fold) → (ws : List Watch)
        → AreInside plan.now (length names) ws
        → tables_text plan.now names folds (sent J) ws
        ≡ tables_text plan.now names folds (run_items plan.now (got J)) ws }
{}
