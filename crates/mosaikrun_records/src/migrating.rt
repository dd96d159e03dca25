//! From a record's bytes to the record of its replay, or why there is none.
ghost use Rattle.std.specs.Prelude.{◌≡◌, ◌==◌, ℕ, List, Result, true, false, length, Err, IfOk, IfErr, if◌then◌else◌};
ghost use Rattle.std.specs.List.{list_all};
ghost use Rattle.mk_plan.specs.Journals.{arrivals};
ghost use Rattle.mk_record.specs.Texts.{record_text};
ghost use Rattle.mk_record.specs.Writable.{is_writable};
ghost use Rattle.mosaikrun_endings.specs.declared.ending.Ending.{Ending};
ghost use Rattle.mosaikrun_endings.specs.declared.ending.Ending.TheVariants as ends;
ghost use Rattle.mosaikrun_records.specs.Migrations.{IsMigration, IsRecordOf, Unmigrated};
ghost use Rattle.mosaikrun_records.specs.inner.Migrations.{is_message};

use crate::saved::saved_of;
use mk_base::Mem;
use mk_plan::{Entry, Journal};
use mk_record::{ReplayEnd, Replayed, replay, write_record};
use mosaikrun_endings::Ending;
use mosaikrun_sayings::stopped;
use std::alloc::Global;

/// The record of version 2 of the journal of a record that is replayed as its messages came; also where the replay
/// isn't done, but all its messages came to be in the journal. Or why there is none: the bytes are no record, an entry
/// of the record differs, a fault came before all its messages were in the journal, or memory is wanting. Read again,
/// it gives the same plan and messages, and the journal's Steps.
pub fn migrated(alloc: Global, bytes: &[u8]) -> Result<Vec<u8>, Ending>
    ensures record { IfOk result (λ text. IsRecordOf bytes.now text.items) }
    ensures none { IfErr result (λ e. Unmigrated bytes.now e) }
{
    let saved = saved_of(alloc, bytes)?;
    let count = saved.arrivals.len();
    let replayed = replay(alloc, saved, None)?;
    let all = has_messages(&replayed.journal, count);
    match replayed.end {
        ReplayEnd::Done => Ok(rewritten(alloc, &replayed)?),
        ReplayEnd::Short(_) => Ok(rewritten(alloc, &replayed)?),
        ReplayEnd::Other(entry) => Err(Ending::Differs { entry }),
        ReplayEnd::Core(fault) => {
            if all {
                return Ok(rewritten(alloc, &replayed)?);
            }
            Err(stopped(alloc, &replayed.plan, &replayed.journal, fault)?)
        }
    }
}

// The record of a replay.
fn rewritten(alloc: Global, replayed: &Replayed) -> Result<Vec<u8>, Mem>
    requires { list_all is_writable replayed.now.journal.entries ≡ true }
    ensures { IfOk result (λ text. text.items
        ≡ record_text replayed.now.plan replayed.now.journal.entries) }
{
    write_record(alloc, &replayed.plan, &replayed.journal)
}

// Whether there are so many messages in the journal.
fn has_messages(journal: &Journal, count: usize) -> bool
    ensures { result ≡ (length (arrivals journal.now.entries) == count) }
{
    message_count(journal.entries.as_slice()) == count
}

fn message_count(entries: &[Entry]) -> usize
    ensures { result ≡ length (arrivals entries.now) }
{
    let mut count = 0;
    for entry in entries {
        count += messages_in(entry);
    }
    count
}

// How many messages the entry is: one or none.
fn messages_in(entry: &Entry) -> usize
    ensures { result ≡ (if is_message entry.now then 1 else 0) }
{
    if is_message(entry) { 1 } else { 0 }
}

fn is_message(entry: &Entry) -> bool
    ensures { result ≡ is_message entry.now }
{
    match entry {
        Entry::Sent(_, _) => false,
        Entry::Got(_, _) => true,
    }
}

/// One record has one migration, want of memory aside: two texts or endings that `migrate` may make of the same bytes
/// are the same.
pub fn record_has_one_migration()
    ensures { (bytes : List ℕ) → (o : Result (List ℕ) Ending) → (p : Result (List ℕ) Ending)
        → IsMigration bytes o → IsMigration bytes p → (o ≡ Err ends.Mem → ⊥)
        → (p ≡ Err ends.Mem → ⊥) → o ≡ p }
{}
