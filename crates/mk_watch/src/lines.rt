//! The lines of a table.
ghost use Rattle.std.specs.Prelude.{◌≡◌, ◌++◌, codes, OnOk};
ghost use Rattle.std.specs.Fmt.{signed_decimal};
ghost use Rattle.mk_plan.specs.Plans.{sim_id};
ghost use Rattle.mk_watch.specs.Tables.{head_text, row_text, total_text};

use crate::rows::Row;
use mk_base::{Mem, SimNo, Text, put, put_signed, put_unsigned};
use mk_plan::{Plan, put_id};

// Appends the head of a table: the entity by its full id, the attribute, the rule's name.
pub fn put_head(
    out: &mut Vec<u8>,
    plan: &Plan,
    sim: SimNo,
    eid: &Text,
    attr: &Text,
    rule: &Text,
) -> Result<(), Mem>
    ensures { OnOk result (out.new.items ≡ out.old.items
        ++ head_text (sim_id plan.now sim.0 ++ codes "." ++ eid.now) attr.now rule.now) }
{
    put(out, "watch ")?;
    put_id(out, plan, sim)?;
    put(out, ".")?;
    put(out, eid.as_str())?;
    put(out, " ")?;
    put(out, attr.as_str())?;
    put(out, " ")?;
    put(out, rule.as_str())?;
    put(out, "\n")
}

// Appends a row.
pub fn put_row(out: &mut Vec<u8>, row: &Row) -> Result<(), Mem>
    ensures { OnOk result (out.new.items ≡ out.old.items ++ row_text row.now) }
{
    put_number(out, &row.at.time)?;
    put(out, ":")?;
    put_unsigned(out, row.at.tier as u64)?;
    put(out, " ")?;
    put_number(out, &row.value)?;
    put(out, "\n")
}

// Appends the last line of a table: so many rows, and the value of all their values.
pub fn put_total(out: &mut Vec<u8>, count: u64, total: Option<i64>) -> Result<(), Mem>
    ensures { OnOk result (out.new.items ≡ out.old.items ++ total_text count total) }
{
    match total {
        None => put(out, "rows 0\n"),
        Some(value) => {
            put(out, "rows ")?;
            put_unsigned(out, count)?;
            put(out, " total ")?;
            put_number(out, &value)?;
            put(out, "\n")
        }
    }
}

// Appends a time or a value.
fn put_number(out: &mut Vec<u8>, number: &i64) -> Result<(), Mem>
    ensures { OnOk result (out.new.items ≡ out.old.items ++ signed_decimal number.now) }
{
    put_signed(out, *number)
}
