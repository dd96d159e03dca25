//! The top call: all that the program does, over a folder, a fleet and two sinks.
ghost use Rattle.std.specs.Prelude.{◌≡◌, ℕ, ◌≤◌, ◌⊎◌, List, Some, Result, Err, IfSome, IsSome, IfOk, IfErr, OnOk, OnErr, map, option_map};
ghost use Rattle.std.specs.String.{string_bytes};
ghost use Rattle.mk_outside.specs.Counts.{HasRisen};
ghost use Rattle.mk_outside.specs.Folders.{with_file};
ghost use Rattle.mk_outside.specs.declared.fleet.LogEntry.{LogEntry};
ghost use Rattle.mk_outside.specs.Logs.{Adds};
ghost use Rattle.mk_launch.specs.Starts.{AreNumbered};
ghost use Rattle.mosaikrun_words.specs.declared.request.Request.{Request};
ghost use Rattle.mosaikrun_words.specs.declared.request.Request.TheVariants as requests;
ghost use Rattle.mosaikrun_words.specs.declared.request.FileCommand.{FileCommand};
ghost use Rattle.mk_local.specs.Kinds.{name_of};
ghost use Rattle.mk_local.specs.Registries.{rows_in};
ghost use Rattle.mosaikrun_endings.specs.declared.ending.Ending.{Ending};
ghost use Rattle.mosaikrun_endings.specs.declared.ending.Ending.TheVariants as ends;
ghost use Rattle.mosaikrun_endings.specs.Endings.{line_of, outcome_status, status_of};
ghost use Rattle.mosaikrun_run.specs.Outcomes.{HoldsOver};
ghost use Rattle.mk_pace_laws.specs.Clocks.{IsRising};
ghost use Rattle.mosaikrun_program.specs.Around.{FolderSeen, KeepsCountsAndLinks, RulesSeen, around, folder_seen, links_seen, output_seen, rules_seen};
ghost use Rattle.mosaikrun_program.specs.inner.Around.{unused};
ghost use Rattle.mosaikrun_program.specs.Commands.{AreHeld, IsAccepted, IsAsked, IsNext, IsNoFile, IsOutcomeOf, IsReadOn, IsUnasked, files_of, read_by};
ghost use Rattle.mosaikrun_program.specs.Pacing.{AsksForPace};
ghost use Rattle.mosaikrun_program.specs.Complete.{EndsPaced, EndsResume, EndsRun};
ghost use Rattle.mosaikrun_program.specs.Fleetless.{IsHeldWithin, NeedsNoFleet};
ghost use Rattle.mosaikrun_program.specs.Headline.{IsRightCall};
ghost use Rattle.mosaikrun_program.specs.Running.{IsDoneOver};
ghost use Rattle.mosaikrun_program.specs.Program.{EndedAs, EndsWith, IsStatusOr, KeepsOthers, TookLine};
ghost use Rattle.mk_base.specs.Limits.{largest_demo, most_milliseconds};

use crate::commands::{file_bytes, made, record_bytes, target_of};
use crate::drafting::{over, scribe_for};
use crate::handing::{hand_out, print};
use mk_base::Text;
use mk_drafts::Drafts;
use mk_local::Registry;
use mk_outside::{FileSave, Fleet, Folder, Paced, PutAll, Sink, put_all};
use mk_progress::{Both, Progress};
use mk_run_crew::handshakes_complete;
use mk_watch_read::Rules;
use mosaikrun_demo::summed;
use mosaikrun_endings::Ending;
use mosaikrun_paced::paced_ran;
use mosaikrun_resume::{resumed, study_of};
use mosaikrun_run::ran;
use mosaikrun_words::{FileCommand, Request, read_words};
use std::alloc::Global;
use std::sync::Wait;

/// Does what the words ask. A command on files reads them, and puts what it makes of them to `out`; a migration puts
/// nothing there, and saves a record. A run reads its scenario's file, is made over the fleet, and may wait for others;
/// it saves its record, where the words give a name, however it ended, if it has a journal and neither memory is
/// wanting nor the folder fails. A run that goes on from a record reads that file too, once its scenario is accepted,
/// and saves the record of the whole run, if it took the old one. A run by the clock holds each Step until its moment.
/// The demo is a run too, of a scenario that is no file. A scenario's simulators within the program are of these kinds,
/// and tables are made by these rules.
///
/// While a run goes, its record is written into a draft beside the file of that name. A draft that is the whole record
/// takes the file's name once the run is over. `progress` is shown what each run is asked and answers, and is told that
/// the run is over before anything is printed.
///
/// Answers the status: 0 where all is done; 2 where the words ask for nothing; 3 where a file isn't there, is too long
/// or is refused; 4 where the handshake is; 5 where a run or a replay ended by a message, a link, a record that differs
/// or a Step that was too late; 6 where the folder, the fleet or `out` failed; 7 at the limit of entries or of an
/// item's bytes; 8 where memory was wanting.
///
/// Nothing is done with the fleet, where the folder tells, unless the words ask for a run by a clock, or for a run, or
/// one that goes on from a record, of a scenario in which some simulator has a link.
///
/// At a status other than 0 `err` gets a line that says why, or a beginning of it where it failed or found no memory,
/// and `out` gets nothing, or a beginning of the text where it failed or found no memory.
pub fn program<D: Drafts, F: Paced, K: Sink, E: Sink, R: Wait, P: Progress>(
    rt: &R,
    alloc: Global,
    words: &[String],
    folder: &mut D,
    fleet: &mut F,
    kinds: &Registry,
    rules: &Rules,
    out: &mut K,
    err: &mut E,
    progress: P,
) -> u8
    ensures headline { HoldsOver F.log F.started F.faults (rows_in kinds.now) fleet.old fleet.new
        (λ O. IsRightCall (around O (map string_bytes words.now) (rules_seen rules.now)
        (folder_seen D.files D.faults folder.old folder.new)
        (output_seen K.written K.faults K.shortages out.old out.new)) result) }
    ensures ended { HoldsOver F.log F.started F.faults (rows_in kinds.now) fleet.old fleet.new
        (λ O. EndsWith (around O (map string_bytes words.now) (rules_seen rules.now)
        (folder_seen D.files D.faults folder.old folder.new)
        (output_seen K.written K.faults K.shortages out.old out.new))
        (HasRisen (E.faults err.old) (E.faults err.new)
        ⊎ HasRisen (E.shortages err.old) (E.shortages err.new))
        (E.written err.old) (E.written err.new) result) }
    ensures completes { HoldsOver F.log F.started F.faults (rows_in kinds.now) fleet.old fleet.new
        (λ O. EndsRun (around O (map string_bytes words.now) (rules_seen rules.now)
        (folder_seen D.files D.faults folder.old folder.new)
        (output_seen K.written K.faults K.shortages out.old out.new)) result) }
    ensures resumes { HoldsOver F.log F.started F.faults (rows_in kinds.now) fleet.old fleet.new
        (λ O. EndsResume (around O (map string_bytes words.now) (rules_seen rules.now)
        (folder_seen D.files D.faults folder.old folder.new)
        (output_seen K.written K.faults K.shortages out.old out.new)) result) }
    ensures paces { HoldsOver F.log F.started F.faults (rows_in kinds.now) fleet.old fleet.new
        (λ O. EndsPaced (around O (map string_bytes words.now) (rules_seen rules.now)
        (folder_seen D.files D.faults folder.old folder.new)
        (output_seen K.written K.faults K.shortages out.old out.new)) result) }
    ensures rising { AsksForPace (map string_bytes words.now) → (entries : List LogEntry)
        × Adds entries (F.log fleet.old) (F.log fleet.new)
        × (IsSome (F.log fleet.new) → IsRising entries) }
    ensures usage { (result ≡ 2) → (R : Request) → IsAsked (map string_bytes words.now) R → ⊥ }
    ensures useless { ((R : Request) → IsAsked (map string_bytes words.now) R → ⊥)
        → IsStatusOr 2 result }
    ensures decided { IfSome (D.files folder.old) (λ held. (command : FileCommand)
        → (read : List (List ℕ)) → (o : Result (List ℕ) Ending)
        → IsAsked (map string_bytes words.now) (requests.Files command)
        → AreHeld (Some held) (read_by command) read
        → IsOutcomeOf (rows_in kinds.now) (rules_seen rules.now) command read o
        → (o ≡ Err ends.Mem → ⊥) → IsStatusOr (outcome_status o) result) }
    ensures unreadable { IfSome (D.files folder.old) (λ held. (R : Request)
        → (read : List (List ℕ)) → (name : List ℕ) → IsAsked (map string_bytes words.now) R
        → AreHeld (Some held) (files_of R) read
        → IsReadOn (IsAccepted (map name_of (rows_in kinds.now)) R) read
        → IsNext (files_of R) read name → IsNoFile (held name) → IsStatusOr 3 result) }
    ensures others_kept { KeepsOthers (map string_bytes words.now) (D.files folder.old)
        (D.files folder.new) }
    ensures fleet_unused { NeedsNoFleet (map string_bytes words.now) (D.files folder.old)
        → fleet.new ≡ fleet.old }
    ensures counts_and_links { KeepsCountsAndLinks
        (folder_seen D.files D.faults folder.old folder.new)
        (links_seen F.started F.open_links F.faults fleet.old fleet.new)
        (output_seen K.written K.faults K.shortages out.old out.new)
        (output_seen E.written E.faults E.shortages err.old err.new) }
{
    // a law, which does nothing: when a run comes to its end
    handshakes_complete();
    match answer(rt, alloc, words, folder, fleet, kinds, rules, out, progress) {
        Ok(()) => 0,
        Err(ending) => {
            let status = tell(alloc, &ending, err);
            drop(ending);
            status
        }
    }
}

// Reads the words, and does what they ask.
fn answer<D: Drafts, F: Paced, K: Sink, R: Wait, P: Progress>(
    rt: &R,
    alloc: Global,
    words: &[String],
    folder: &mut D,
    fleet: &mut F,
    kinds: &Registry,
    rules: &Rules,
    out: &mut K,
    progress: P,
) -> Result<(), Ending>
    ensures ended { HoldsOver F.log F.started F.faults (rows_in kinds.now) fleet.old fleet.new
        (λ O. EndedAs (around O (map string_bytes words.now) (rules_seen rules.now)
        (folder_seen D.files D.faults folder.old folder.new)
        (output_seen K.written K.faults K.shortages out.old out.new)) result) }
    ensures links_closed { AreNumbered (F.started fleet.old) (F.open_links fleet.old)
        → F.open_links fleet.new ≡ F.open_links fleet.old }
    ensures fleet_unused { NeedsNoFleet (map string_bytes words.now) (D.files folder.old)
        → fleet.new ≡ fleet.old }
    ensures rising { AsksForPace (map string_bytes words.now) → (entries : List LogEntry)
        × Adds entries (F.log fleet.old) (F.log fleet.new)
        × (IsSome (F.log fleet.new) → IsRising entries) }
    ensures folder_count { D.faults folder.old ≤ D.faults folder.new }
    ensures fleet_count { F.faults fleet.old ≤ F.faults fleet.new }
    ensures out_count { K.faults out.old ≤ K.faults out.new }
{
    match asked(alloc, words)? {
        Request::Run { scenario, record } => {
            play(
                rt,
                alloc,
                scenario.as_str(),
                &record,
                folder,
                fleet,
                kinds,
                out,
                progress,
            )
        }
        Request::Resume {
            scenario,
            record,
            save,
        } => {
            carry_on(
                rt,
                alloc,
                scenario.as_str(),
                record.as_str(),
                &save,
                folder,
                fleet,
                kinds,
                out,
                progress,
            )
        }
        Request::Paced {
            scenario,
            factor,
            strict,
            record,
        } => {
            pace(
                rt,
                alloc,
                scenario.as_str(),
                factor,
                strict,
                &record,
                folder,
                fleet,
                kinds,
                out,
                progress,
            )
        }
        Request::Demo { size } => { sum_up(rt, alloc, size, fleet, kinds, out, progress) }
        Request::Files(command) => make(alloc, &command, folder, kinds, rules, out),
    }
}

// Does a command on files: prints its text, or saves it under the name that the command has for it.
fn make<D: Folder, K: Sink>(
    alloc: Global,
    command: &FileCommand,
    folder: &mut D,
    kinds: &Registry,
    rules: &Rules,
    out: &mut K,
) -> Result<(), Ending>
    ensures made { (words : List (List ℕ)) → (started : ℕ) → (faults : ℕ)
        → IsAsked words (requests.Files command.now)
        → EndedAs (around (unused (rows_in kinds.now) started faults) words (rules_seen rules.now)
        (folder_seen D.files D.faults folder.old folder.new)
        (output_seen K.written K.faults K.shortages out.old out.new)) result }
    ensures folder_count { D.faults folder.old ≤ D.faults folder.new }
    ensures out_count { K.faults out.old ≤ K.faults out.new }
{
    let text = made(alloc, kinds, rules, command, folder)?;
    match target_of(command) {
        Some(name) => save(folder, name, text.as_slice()),
        None => print(out, text.as_slice()),
    }
}

// Saves a file, or says why it isn't saved.
fn save<D: Folder>(folder: &mut D, name: &str, bytes: &[u8]) -> Result<(), Ending>
    ensures kept { OnOk result (D.files folder.new
        ≡ option_map (with_file name.now bytes.now) (D.files folder.old)) }
    ensures unsaved { OnErr result (D.files folder.new ≡ D.files folder.old) }
    ensures cause { IfErr result (λ e. ((e ≡ ends.Folder)
        × HasRisen (D.faults folder.old) (D.faults folder.new)) ⊎ (e ≡ ends.Mem)) }
    ensures count { D.faults folder.old ≤ D.faults folder.new }
{
    match folder.save(name, bytes) {
        FileSave::Kept => Ok(()),
        FileSave::Failed => Err(Ending::Folder),
        FileSave::Mem => Err(Ending::Mem),
    }
}

// What the words ask for.
fn asked(alloc: Global, words: &[String]) -> Result<Request, Ending>
    ensures asked { IfOk result (λ request. IsAsked (map string_bytes words.now) request) }
    ensures unasked { IfErr result (λ ending. IsUnasked (map string_bytes words.now) ending) }
{
    match read_words(alloc, words)? {
        Some(request) => Ok(request),
        None => Err(Ending::Usage),
    }
}

// Reads a scenario's file and runs it over the fleet; the record is saved under the name, if there is one, and the
// report is printed.
fn play<D: Drafts, F: Fleet, K: Sink, R: Wait, P: Progress>(
    rt: &R,
    alloc: Global,
    scenario: &str,
    name: &Option<Text>,
    folder: &mut D,
    fleet: &mut F,
    kinds: &Registry,
    out: &mut K,
    progress: P,
) -> Result<(), Ending>
    ensures played { (words : List (List ℕ)) → (rules : RulesSeen)
        → IsAsked words (requests.Run scenario.now name.now)
        → HoldsOver F.log F.started F.faults (rows_in kinds.now) fleet.old fleet.new
        (λ O. EndedAs (around O words rules (folder_seen D.files D.faults folder.old folder.new)
        (output_seen K.written K.faults K.shortages out.old out.new)) result) }
    ensures links_closed { AreNumbered (F.started fleet.old) (F.open_links fleet.old)
        → F.open_links fleet.new ≡ F.open_links fleet.old }
    ensures within { IsHeldWithin (D.files folder.old) scenario.now → fleet.new ≡ fleet.old }
    ensures folder_count { D.faults folder.old ≤ D.faults folder.new }
    ensures fleet_count { F.faults fleet.old ≤ F.faults fleet.new }
    ensures out_count { K.faults out.old ≤ K.faults out.new }
{
    let bytes = file_bytes(alloc, folder, scenario)?;
    let scribe = scribe_for(alloc, folder, name)?;
    let mut both = Both {
        first: scribe,
        second: progress,
    };
    let told = ran(
        rt,
        alloc,
        kinds,
        bytes.as_slice(),
        fleet,
        name.is_some(),
        &mut both,
    );
    hand_out(told, name, folder, over(both), out)
}

// Reads a scenario's file and then, where it can be run, that of a record, which is mended, and goes on with the run over
// the fleet; the new record is saved under the name, if there is one, and the report is printed.
fn carry_on<D: Drafts, F: Fleet, K: Sink, R: Wait, P: Progress>(
    rt: &R,
    alloc: Global,
    scenario: &str,
    recorded: &str,
    name: &Option<Text>,
    folder: &mut D,
    fleet: &mut F,
    kinds: &Registry,
    out: &mut K,
    progress: P,
) -> Result<(), Ending>
    ensures carried { (words : List (List ℕ)) → (rules : RulesSeen)
        → IsAsked words (requests.Resume scenario.now recorded.now name.now)
        → HoldsOver F.log F.started F.faults (rows_in kinds.now) fleet.old fleet.new
        (λ O. EndedAs (around O words rules (folder_seen D.files D.faults folder.old folder.new)
        (output_seen K.written K.faults K.shortages out.old out.new)) result) }
    ensures links_closed { AreNumbered (F.started fleet.old) (F.open_links fleet.old)
        → F.open_links fleet.new ≡ F.open_links fleet.old }
    ensures within { IsHeldWithin (D.files folder.old) scenario.now → fleet.new ≡ fleet.old }
    ensures folder_count { D.faults folder.old ≤ D.faults folder.new }
    ensures fleet_count { F.faults fleet.old ≤ F.faults fleet.new }
    ensures out_count { K.faults out.old ≤ K.faults out.new }
{
    let bytes = file_bytes(alloc, folder, scenario)?;
    let study = study_of(alloc, kinds, bytes.as_slice())?;
    let old = record_bytes(alloc, folder, recorded)?;
    let scribe = scribe_for(alloc, folder, name)?;
    let mut both = Both {
        first: scribe,
        second: progress,
    };
    let told = resumed(
        rt,
        alloc,
        kinds,
        study,
        old.as_slice(),
        fleet,
        name.is_some(),
        &mut both,
    );
    hand_out(told, name, folder, over(both), out)
}

// Reads a scenario's file and runs it over the fleet by its clock, with so many milliseconds to a unit of time; the
// record is saved under the name, if there is one, and the report is printed.
fn pace<D: Drafts, F: Paced, K: Sink, R: Wait, P: Progress>(
    rt: &R,
    alloc: Global,
    scenario: &str,
    factor: u32,
    strict: Option<u32>,
    name: &Option<Text>,
    folder: &mut D,
    fleet: &mut F,
    kinds: &Registry,
    out: &mut K,
    progress: P,
) -> Result<(), Ending>
    requires least { 1 ≤ factor }
    requires most { factor ≤ most_milliseconds }
    requires allowed { IfSome strict (λ ms. ms ≤ most_milliseconds) }
    ensures paced { (words : List (List ℕ)) → (rules : RulesSeen)
        → IsAsked words (requests.Paced scenario.now factor strict name.now)
        → HoldsOver F.log F.started F.faults (rows_in kinds.now) fleet.old fleet.new
        (λ O. EndedAs (around O words rules (folder_seen D.files D.faults folder.old folder.new)
        (output_seen K.written K.faults K.shortages out.old out.new)) result) }
    ensures links_closed { AreNumbered (F.started fleet.old) (F.open_links fleet.old)
        → F.open_links fleet.new ≡ F.open_links fleet.old }
    ensures rising { (entries : List LogEntry) × Adds entries (F.log fleet.old) (F.log fleet.new)
        × (IsSome (F.log fleet.new) → IsRising entries) }
    ensures folder_count { D.faults folder.old ≤ D.faults folder.new }
    ensures fleet_count { F.faults fleet.old ≤ F.faults fleet.new }
    ensures out_count { K.faults out.old ≤ K.faults out.new }
{
    let bytes = file_bytes(alloc, folder, scenario)?;
    let scribe = scribe_for(alloc, folder, name)?;
    let mut both = Both {
        first: scribe,
        second: progress,
    };
    let told = paced_ran(
        rt,
        alloc,
        kinds,
        bytes.as_slice(),
        fleet,
        factor as u64,
        wide(strict),
        name.is_some(),
        &mut both,
    );
    hand_out(told, name, folder, over(both), out)
}

// A number of milliseconds as wide as those of a clock.
fn wide(number: Option<u32>) -> Option<u64>
    ensures { result ≡ number }
{
    match number {
        Some(number) => Some(u64::from(number)),
        None => None,
    }
}

// Runs the demo scenario of this size over the fleet, and prints its summary.
fn sum_up<F: Fleet, K: Sink, R: Wait, P: Progress>(
    rt: &R,
    alloc: Global,
    size: u32,
    fleet: &mut F,
    kinds: &Registry,
    out: &mut K,
    progress: P,
) -> Result<(), Ending>
    requires low { 1 ≤ size }
    requires high { size ≤ largest_demo }
    ensures summed { (words : List (List ℕ)) → (rules : RulesSeen) → (folder : FolderSeen)
        → folder.files_after ≡ folder.files
        → HoldsOver F.log F.started F.faults (rows_in kinds.now) fleet.old fleet.new
        (λ O. IsDoneOver (around O words rules folder
        (output_seen K.written K.faults K.shortages out.old out.new)) (requests.Demo size) result) }
    ensures links_closed { AreNumbered (F.started fleet.old) (F.open_links fleet.old)
        → F.open_links fleet.new ≡ F.open_links fleet.old }
    ensures alone { fleet.new ≡ fleet.old }
    ensures fleet_count { F.faults fleet.old ≤ F.faults fleet.new }
    ensures out_count { K.faults out.old ≤ K.faults out.new }
{
    let mut progress = progress;
    let summary = summed(rt, alloc, kinds, size, fleet, &mut progress);
    progress.end();
    print(out, summary?.as_slice())
}

// Says why there is no text, and answers the status. Where there is no memory for the line it says that.
fn tell<E: Sink>(alloc: Global, ending: &Ending, err: &mut E) -> u8
    ensures told { (e : Ending) × ((e ≡ ending.now) ⊎ (e ≡ ends.Mem)) × (result ≡ status_of e)
        × TookLine (line_of e) (HasRisen (E.faults err.old) (E.faults err.new)
        ⊎ HasRisen (E.shortages err.old) (E.shortages err.new)) (E.written err.old)
        (E.written err.new) }
    ensures count { E.faults err.old ≤ E.faults err.new }
{
    match ending.line(alloc) {
        Ok(line) => {
            put_line(err, line.as_slice());
            ending.status()
        }
        Err(_) => {
            put_line(err, b"mosaikrun: out of memory\n");
            8
        }
    }
}

// Puts a line, or a beginning of it where the sink fails or finds no memory.
fn put_line<E: Sink>(err: &mut E, line: &[u8])
    ensures told { TookLine line.now (HasRisen (E.faults err.old) (E.faults err.new)
        ⊎ HasRisen (E.shortages err.old) (E.shortages err.new)) (E.written err.old)
        (E.written err.new) }
    ensures count { E.faults err.old ≤ E.faults err.new }
{
    match put_all(err, line) {
        PutAll::Done => (),
        PutAll::Failed => (),
        PutAll::Mem => (),
    }
}
