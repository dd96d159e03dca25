//! The commands on files: what each makes of the files that it reads.
ghost use Rattle.std.specs.Prelude.{◌≡◌, ◌∷◌, [], ◌≤◌, ◌⊎◌, List, Ok, Err, IfOk, IfErr, map, option_map};
ghost use Rattle.mk_local.specs.declared.turn.Turn.{Turn};
ghost use Rattle.mk_local.specs.Kinds.{name_of};
ghost use Rattle.mk_local.specs.Registries.{rows_in};
ghost use Rattle.mk_outside.specs.Counts.{HasRisen};
ghost use Rattle.mk_record_mend.specs.Mended.{mended};
ghost use Rattle.mosaikrun_check.specs.Checks as checks;
ghost use Rattle.mosaikrun_records.specs.Migrations.{IsMigration};
ghost use Rattle.mosaikrun_records.specs.Reports as reports;
ghost use Rattle.mosaikrun_words.specs.declared.request.PairCommand.{PairCommand};
ghost use Rattle.mosaikrun_program.specs.Around.{RulesSeen, rules_seen};
ghost use Rattle.mosaikrun_program.specs.Commands.{HasBytes, ComesOfFiles, IsStuck, IsUnreadable, target_of};
ghost use Rattle.mosaikrun_program.specs.inner.Making.{IsMadeOfOne, IsMendedFile, IsUnmade};

use mk_base::Text;
use mk_local::Registry;
use mk_outside::{FileRead, Folder};
use mk_record_mend::mend;
use mk_watch_read::Rules;
use mosaikrun_blame::blamed;
use mosaikrun_check::checked;
use mosaikrun_endings::Ending;
use mosaikrun_records::{migrated, reported, saved_of};
use mosaikrun_watch::{tabled, watches_of};
use mosaikrun_words::{FileCommand, PairCommand};
use std::alloc::Global;

// The text that a command makes of its files, or why there is none. They are read in order, the second once the first
// is accepted.
pub fn made<D: Folder>(
    alloc: Global,
    kinds: &Registry,
    rules: &Rules,
    command: &FileCommand,
    folder: &mut D,
) -> Result<Vec<u8>, Ending>
    ensures text { IfOk result
        (λ text. ComesOfFiles (D.files folder.old) (rows_in kinds.now)
        (rules_seen rules.now) command.now
        (Ok text.items)) }
    ensures none { IfErr result (λ e. IsUnmade (D.files folder.old) (rows_in kinds.now)
        (rules_seen rules.now) command.now
        (HasRisen (D.faults folder.old) (D.faults folder.new)) e) }
    ensures kept { D.files folder.new ≡ D.files folder.old }
    ensures count { D.faults folder.old ≤ D.faults folder.new }
{
    match command {
        FileCommand::Replay { record, order } => {
            replay_file(alloc, record.as_str(), *order, folder)
        }
        FileCommand::Check { scenario } => check_file(alloc, kinds, scenario.as_str(), folder),
        FileCommand::Pair {
            command,
            first,
            second,
        } => pair_made(
            alloc,
            rules,
            *command,
            first.as_str(),
            second.as_str(),
            folder,
        ),
    }
}

// The text that a command that is given two names makes of its files, or why there is none.
fn pair_made<D: Folder>(
    alloc: Global,
    rules: &Rules,
    command: PairCommand,
    first: &str,
    second: &str,
    folder: &mut D,
) -> Result<Vec<u8>, Ending>
    ensures text { (kinds : List Turn) → IfOk result
        (λ text. ComesOfFiles (D.files folder.old) kinds (rules_seen rules.now)
        (FileCommand.Pair command first.now second.now) (Ok text.items)) }
    ensures none { (kinds : List Turn) → IfErr result
        (λ e. IsUnmade (D.files folder.old) kinds (rules_seen rules.now)
        (FileCommand.Pair command first.now second.now)
        (HasRisen (D.faults folder.old) (D.faults folder.new)) e) }
    ensures kept { D.files folder.new ≡ D.files folder.old }
    ensures count { D.faults folder.old ≤ D.faults folder.new }
{
    match command {
        PairCommand::Migrate => migrate_file(alloc, first, folder),
        PairCommand::Watch => watch_files(alloc, rules, first, second, folder),
        PairCommand::Blame => blame_files(alloc, first, second, folder),
    }
}

// The report of a record, replayed in this order or as its messages came.
fn replay_file<D: Folder>(
    alloc: Global,
    name: &str,
    order: Option<u32>,
    folder: &mut D,
) -> Result<Vec<u8>, Ending>
    ensures text { IfOk result (λ text. IsMadeOfOne (D.files folder.old) name.now
        (λ bytes. reports.IsOutcome bytes order) (Ok text.items)) }
    ensures none { IfErr result (λ e. IsStuck (D.files folder.old) (name.now ∷ [])
        (HasRisen (D.faults folder.old) (D.faults folder.new)) e
        ⊎ IsMadeOfOne (D.files folder.old) name.now
        (λ bytes. reports.IsOutcome bytes order) (Err e)) }
    ensures kept { D.files folder.new ≡ D.files folder.old }
    ensures count { D.faults folder.old ≤ D.faults folder.new }
{
    let bytes = file_bytes(alloc, folder, name)?;
    reported(alloc, bytes.as_slice(), order)
}

// What `check` says of a scenario.
fn check_file<D: Folder>(
    alloc: Global,
    kinds: &Registry,
    scenario: &str,
    folder: &mut D,
) -> Result<Vec<u8>, Ending>
    ensures text { IfOk result (λ text. IsMadeOfOne (D.files folder.old) scenario.now
        (checks.IsOutcome (map name_of (rows_in kinds.now))) (Ok text.items)) }
    ensures none { IfErr result (λ e. IsStuck (D.files folder.old) (scenario.now ∷ [])
        (HasRisen (D.faults folder.old) (D.faults folder.new)) e
        ⊎ IsMadeOfOne (D.files folder.old) scenario.now
        (checks.IsOutcome (map name_of (rows_in kinds.now))) (Err e)) }
    ensures kept { D.files folder.new ≡ D.files folder.old }
    ensures count { D.faults folder.old ≤ D.faults folder.new }
{
    let bytes = file_bytes(alloc, folder, scenario)?;
    let names = kinds.names(alloc)?;
    checked(alloc, &names, bytes.as_slice())
}

// The record of a record's replay, which is mended first.
fn migrate_file<D: Folder>(alloc: Global, old: &str, folder: &mut D) -> Result<Vec<u8>, Ending>
    ensures text { IfOk result (λ text. IsMadeOfOne (D.files folder.old) old.now
        (λ bytes. IsMigration (mended bytes)) (Ok text.items)) }
    ensures none { IfErr result (λ e. IsStuck (D.files folder.old) (old.now ∷ [])
        (HasRisen (D.faults folder.old) (D.faults folder.new)) e
        ⊎ IsMadeOfOne (D.files folder.old) old.now
        (λ bytes. IsMigration (mended bytes)) (Err e)) }
    ensures kept { D.files folder.new ≡ D.files folder.old }
    ensures count { D.faults folder.old ≤ D.faults folder.new }
{
    let bytes = record_bytes(alloc, folder, old)?;
    migrated(alloc, bytes.as_slice())
}

// The tables that the second file says over the record of the first.
fn watch_files<D: Folder>(
    alloc: Global,
    rules: &Rules,
    first: &str,
    second: &str,
    folder: &mut D,
) -> Result<Vec<u8>, Ending>
    ensures text { (command : PairCommand) → command ≡ PairCommand.Watch → (kinds : List Turn)
        → IfOk result (λ text. ComesOfFiles (D.files folder.old) kinds (rules_seen rules.now)
        (FileCommand.Pair command first.now second.now) (Ok text.items)) }
    ensures none { (command : PairCommand) → command ≡ PairCommand.Watch → (kinds : List Turn)
        → IfErr result (λ e. IsUnmade (D.files folder.old) kinds (rules_seen rules.now)
        (FileCommand.Pair command first.now second.now)
        (HasRisen (D.faults folder.old) (D.faults folder.new)) e) }
    ensures kept { D.files folder.new ≡ D.files folder.old }
    ensures count { D.faults folder.old ≤ D.faults folder.new }
{
    let record = file_bytes(alloc, folder, first)?;
    let saved = saved_of(alloc, record.as_slice())?;
    let spec = file_bytes(alloc, folder, second)?;
    let watches = watches_of(alloc, rules, &saved, spec.as_slice())?;
    tabled(alloc, rules, saved, watches)
}

// Who is to blame that two records differ.
fn blame_files<D: Folder>(
    alloc: Global,
    first: &str,
    second: &str,
    folder: &mut D,
) -> Result<Vec<u8>, Ending>
    ensures text { (command : PairCommand) → command ≡ PairCommand.Blame → (kinds : List Turn)
        → (rules : RulesSeen) → IfOk result (λ text. ComesOfFiles (D.files folder.old) kinds rules
        (FileCommand.Pair command first.now second.now) (Ok text.items)) }
    ensures none { (command : PairCommand) → command ≡ PairCommand.Blame → (kinds : List Turn)
        → (rules : RulesSeen) → IfErr result (λ e. IsUnmade (D.files folder.old) kinds rules
        (FileCommand.Pair command first.now second.now)
        (HasRisen (D.faults folder.old) (D.faults folder.new)) e) }
    ensures kept { D.files folder.new ≡ D.files folder.old }
    ensures count { D.faults folder.old ≤ D.faults folder.new }
{
    let record = file_bytes(alloc, folder, first)?;
    let one = saved_of(alloc, record.as_slice())?;
    let record = file_bytes(alloc, folder, second)?;
    let other = saved_of(alloc, record.as_slice())?;
    blamed(alloc, one, other)
}

// The name that a command saves its text under; the others print it.
pub fn target_of(command: &FileCommand) -> Option<&str>
    ensures { option_map (λ name. name.now) result ≡ target_of command.now }
{
    match command {
        FileCommand::Replay { .. } | FileCommand::Check { .. } => None,
        FileCommand::Pair {
            command,
            first: _,
            second,
        } => match command {
            PairCommand::Migrate => Some(second.as_str()),
            _ => None,
        },
    }
}

// The bytes of a record's file, mended where the record was cut short; or why there are none.
pub fn record_bytes<D: Folder>(alloc: Global, folder: &mut D, name: &str) -> Result<Vec<u8>, Ending>
    ensures read { IfOk result (λ bytes. IsMendedFile (D.files folder.old) name.now bytes.items) }
    ensures unread { IfErr result
        (λ e. IsUnreadable (D.files folder.old) name.now
        (HasRisen (D.faults folder.old) (D.faults folder.new)) e) }
    ensures kept { D.files folder.new ≡ D.files folder.old }
    ensures count { D.faults folder.old ≤ D.faults folder.new }
{
    let mut bytes = file_bytes(alloc, folder, name)?;
    mend(&mut bytes)?;
    Ok(bytes)
}

// A file's bytes, or why there are none.
pub fn file_bytes<D: Folder>(alloc: Global, folder: &mut D, name: &str) -> Result<Vec<u8>, Ending>
    ensures read { IfOk result (λ bytes. HasBytes (D.files folder.old) name.now bytes.items) }
    ensures unread { IfErr result
        (λ e. IsUnreadable (D.files folder.old) name.now
        (HasRisen (D.faults folder.old) (D.faults folder.new)) e) }
    ensures kept { D.files folder.new ≡ D.files folder.old }
    ensures count { D.faults folder.old ≤ D.faults folder.new }
{
    let mut bytes = Vec::new(alloc);
    match folder.read(name, &mut bytes) {
        FileRead::Whole => Ok(bytes),
        FileRead::Missing => Err(Ending::Missing {
            name: Text::of(alloc, name)?,
        }),
        FileRead::TooLong(count) => Err(Ending::TooLong {
            name: Text::of(alloc, name)?,
            count,
        }),
        FileRead::Failed => Err(Ending::Folder),
        FileRead::Mem => Err(Ending::Mem),
    }
}
