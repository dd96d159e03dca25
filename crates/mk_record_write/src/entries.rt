//! The lines of a journal: the steps that were asked for and the messages that came, in their order.
ghost use Rattle.std.specs.Prelude.{◌≡◌, ◌++◌, ◌∷◌, [], true, length, flat_map, OnOk, if◌then◌else◌};
ghost use Rattle.std.specs.List.{join_with_byte, list_all};
ghost use Rattle.std.specs.Fmt.{decimal, signed_decimal};
ghost use Rattle.mk_record_read.specs.Entries.{entries_of};
ghost use Rattle.mk_record_read.specs.Texts.{ask_line, entry_line, got_line};
ghost use Rattle.mk_plan.specs.Report.{is_step};
ghost use Rattle.mk_record_write.specs.Writable.{is_writable};
ghost use Rattle.mk_record_write.specs.inner.Writable.{is_line, item_line, line_in};
ghost use Rattle.mk_plan.specs.Messages.{is_message_in_range};

use mk_base::{Mem, SimNo, Tier, put, put_signed, put_unsigned};
use mk_message::write;
use mk_plan::{Entry, Item, Message};
use std::alloc::Global;

/// Appends the lines of these entries.
pub fn put_entries(alloc: Global, out: &mut Vec<u8>, entries: &[Entry]) -> Result<(), Mem>
    requires { list_all is_writable entries.now ≡ true }
    ensures { OnOk result
        (out.new.items ≡ out.old.items ++ flat_map entry_line (entries_of entries.now)) }
{
    for entry in entries {
        put_entry(alloc, out, entry)?;
    }
    Ok(())
}

// Appends an entry's line, if it has one.
fn put_entry(alloc: Global, out: &mut Vec<u8>, entry: &Entry) -> Result<(), Mem>
    requires { is_writable entry.now ≡ true }
    ensures { OnOk result (out.new.items ≡ out.old.items ++ line_in entry.now) }
{
    match entry {
        Entry::Sent(sim, item) => put_item(out, sim, item),
        Entry::Got(sim, message) => put_got(alloc, out, sim, message),
    }
}

// Appends an item's line, if it is a Step.
fn put_item(out: &mut Vec<u8>, sim: &SimNo, item: &Item) -> Result<(), Mem>
    ensures { OnOk result (out.new.items ≡ out.old.items ++ item_line sim.now.0 item.now) }
{
    match item {
        Item::Step {
            at,
            inputs: _,
            max_advance,
        } => put_ask(out, sim, at, max_advance),
        Item::GetData { wanted: _ } => Ok(()),
        Item::Answer { id: _, content: _ } => Ok(()),
        Item::Refuse { id: _, reason: _ } => Ok(()),
    }
}

fn put_ask(out: &mut Vec<u8>, sim: &SimNo, at: &Tier, max_advance: &i64) -> Result<(), Mem>
    ensures { OnOk result
        (out.new.items ≡ out.old.items ++ ask_line sim.now.0 at.now max_advance.now) }
{
    put(out, "ask [")?;
    put_unsigned(out, sim.0 as u64)?;
    put(out, ",")?;
    put_tier(out, at)?;
    put(out, ",")?;
    put_signed(out, *max_advance)?;
    put(out, "]\n")
}

// A tiered time, its tier behind a comma.
fn put_tier(out: &mut Vec<u8>, at: &Tier) -> Result<(), Mem>
    ensures { OnOk result (out.new.items ≡ out.old.items
        ++ join_with_byte 44 (signed_decimal at.now.time ∷ decimal at.now.tier ∷ [])) }
{
    put_signed(out, at.time)?;
    put(out, ",")?;
    put_unsigned(out, at.tier as u64)
}

fn put_got(alloc: Global, out: &mut Vec<u8>, sim: &SimNo, message: &Message) -> Result<(), Mem>
    requires { is_message_in_range message.now ≡ true }
    ensures { OnOk result (out.new.items ≡ out.old.items
        ++ got_line (record { sim = sim.now.0; message = message.now })) }
{
    put(out, "got [")?;
    put_unsigned(out, sim.0 as u64)?;
    put(out, ",")?;
    out.extend_from_slice(write(alloc, message)?.as_slice())?;
    put(out, "]\n")
}

/// How many of these entries have a line.
pub fn line_count(entries: &[Entry]) -> usize
    ensures { result ≡ length (entries_of entries.now) }
{
    let mut count = 0;
    for entry in entries {
        count += lines_in(entry);
    }
    count
}

// How many lines the entry has: one or none.
fn lines_in(entry: &Entry) -> usize
    ensures { result ≡ (if is_line entry.now then 1 else 0) }
{
    if is_line(entry) { 1 } else { 0 }
}

fn is_line(entry: &Entry) -> bool
    ensures { result ≡ is_line entry.now }
{
    match entry {
        Entry::Sent(_, item) => is_step(item),
        Entry::Got(_, _) => true,
    }
}

fn is_step(item: &Item) -> bool
    ensures { result ≡ is_step item.now }
{
    match item {
        Item::Step {
            at: _,
            inputs: _,
            max_advance: _,
        } => true,
        Item::GetData { wanted: _ } => false,
        Item::Answer { id: _, content: _ } => false,
        Item::Refuse { id: _, reason: _ } => false,
    }
}
