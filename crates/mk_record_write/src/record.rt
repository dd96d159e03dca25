//! The whole record of a plan and a journal.
ghost use Rattle.std.specs.Prelude.{◌≡◌, ◌<◌, ◌^◌, ◌++◌, Some, true, codes, length, IfOk, OnOk};
ghost use Rattle.std.specs.Fmt.{decimal};
ghost use Rattle.std.specs.List.{list_all};
ghost use Rattle.mk_plan.specs.Journals.{arrivals};
ghost use Rattle.mk_plan_check.specs.inner.FirstBad.{HasDatums};
ghost use Rattle.mk_record_read.specs.Entries.{entries_of};
ghost use Rattle.mk_record_read.specs.Reading.{reading, Said};
ghost use Rattle.mk_record_read.specs.Texts.{record_text};
ghost use Rattle.mk_record_laws.specs.Again.{steps_of};
ghost use Rattle.mk_record_laws.specs.Readable.{IsReadable};
ghost use Rattle.mk_record_laws.specs.inner.Readable.{HasNames};
ghost use Rattle.mk_record_write.specs.Writable.{is_writable};

use crate::entries::{line_count, put_entries};
use crate::parts::put_plan;
use mk_base::{Mem, put, put_unsigned};
use mk_plan::{Journal, Plan};
use std::alloc::Global;

/// The record of a plan and of a journal, version 2: the parts of the plan in their order, and the Steps and the
/// messages of the journal in theirs. The whole numbers in the messages are those that a payload may have, from -2^63
/// to 2^64 - 1.
///
/// Read again, it gives the plan, the messages in their order, and the Steps with their tiered times, `max_advance` and
/// places among the messages: where the plan is valid, each Step and message is of one of its simulators, the numbers
/// of each Step are within the limits of a record, and each message is one that `mk_message::read` gives for a payload
/// and nests no deeper than 126, its own list counted. `Mem` is want of memory.
pub fn write_record(alloc: Global, plan: &Plan, journal: &Journal) -> Result<Vec<u8>, Mem>
    requires { list_all is_writable journal.now.entries ≡ true }
    ensures text { IfOk result (λ text. text.items ≡ record_text plan.now journal.now.entries) }
    ensures again { IfOk result (λ text. IsReadable plan.now journal.now.entries
        → reading text.items
        ≡ Said plan.now (arrivals journal.now.entries) (Some (steps_of journal.now.entries))) }
{
    let out = bytes_of(alloc, plan, journal)?;
    Ok(out)
}

// The bytes of the record, of which the names are UTF-8, the initial values data, and the entries no more than a number
// can tell.
fn bytes_of(alloc: Global, plan: &Plan, journal: &Journal) -> Result<Vec<u8>, Mem>
    requires { list_all is_writable journal.now.entries ≡ true }
    ensures text { IfOk result (λ text. text.items ≡ record_text plan.now journal.now.entries) }
    ensures names { IfOk result (λ text. HasNames plan.now) }
    ensures datums { IfOk result (λ text. HasDatums plan.now) }
    ensures few { IfOk result (λ text. length (entries_of journal.now.entries) < 2 ^ 64) }
{
    let mut out = Vec::new(alloc);
    let entries = journal.entries.as_slice();
    put_plan(alloc, &mut out, plan)?;
    put_entries(alloc, &mut out, entries)?;
    put_end(&mut out, line_count(entries))?;
    Ok(out)
}

// Appends the last line, with the number of lines for entries.
fn put_end(out: &mut Vec<u8>, count: usize) -> Result<(), Mem>
    ensures written { OnOk result (out.new.items ≡ out.old.items
        ++ (codes "end " ++ (decimal count ++ codes "\n"))) }
    ensures few { count < 2 ^ 64 }
{
    put(out, "end ")?;
    put_unsigned(out, count as u64)?;
    put(out, "\n")
}
