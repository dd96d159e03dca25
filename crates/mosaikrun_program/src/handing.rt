//! What becomes of a text and of a record: they are printed and saved, or it is said why not.
ghost use Rattle.std.specs.Prelude.{◌≡◌, ◌≤◌, ◌⊎◌, IsSome, Ok, Err, IfOk, IfErr, IfSome, option_map};
ghost use Rattle.mk_outside.specs.Counts.{HasRisen};
ghost use Rattle.mk_scribe.specs.Desks.{desk_of};
ghost use Rattle.mk_scribe.specs.Leaving.{IfWhole};
ghost use Rattle.mosaikrun_program.specs.inner.Drafting.{HasRecord};
ghost use Rattle.mosaikrun_program.specs.Answers.{PrintAnswer};
ghost use Rattle.mosaikrun_program.specs.Around.{IsSaidAs, folder_seen, output_seen};
ghost use Rattle.mosaikrun_program.specs.Running.{IsFolderAfter, IsUnsaved, RunAnswer};

use crate::drafting::{put_away, save};
use mk_base::Text;
use mk_drafts::Drafts;
use mk_outside::{FileSave, PutAll, Sink, put_all};
use mk_scribe::{Left, Scribe};
use mosaikrun_endings::Ending;
use mosaikrun_run::Told;

// Saves the record of what was done over a fleet, if there is one, under the name, if one is given, and prints the
// text; or says why there is none, or why it isn't printed. The scribe has written the record of what was done.
pub fn hand_out<D: Drafts, K: Sink>(
    told: Told,
    name: &Option<Text>,
    folder: &mut D,
    scribe: Scribe<D::Draft>,
    out: &mut K,
) -> Result<(), Ending>
    requires has { IfSome (option_map (λ r. r.items) told.record_text) (λ bytes. HasRecord
        (desk_of D.Draft.written D.Draft.faults D.Draft.shortages scribe) bytes) }
    ensures text { IfOk told.text
        (λ text. RunAnswer (folder_seen D.files D.faults folder.old folder.new)
        (output_seen K.written K.faults K.shortages out.old out.new) name.now (Ok text.items)
        (option_map (λ r. r.items) told.record_text) result) }
    ensures none { IfErr told.text
        (λ e. RunAnswer (folder_seen D.files D.faults folder.old folder.new)
        (output_seen K.written K.faults K.shortages out.old out.new) name.now (Err e)
        (option_map (λ r. r.items) told.record_text) result) }
    ensures folder_count { D.faults folder.old ≤ D.faults folder.new }
    ensures out_count { K.faults out.old ≤ K.faults out.new }
{
    let Told { text, record_text } = told;
    let left = scribe.close();
    match text {
        Ok(text) => report(text.as_slice(), &record_text, name, folder, left, out),
        Err(ending) => Err(explained(ending, &record_text, name, folder, left)),
    }
}

// Saves the record and prints the text; where the record isn't saved it says so, and prints nothing.
fn report<D: Drafts, K: Sink>(
    text: &[u8],
    kept: &Option<Vec<u8>>,
    name: &Option<Text>,
    folder: &mut D,
    left: Left<D::Draft>,
    out: &mut K,
) -> Result<(), Ending>
    requires whole { IfSome (option_map (λ b. b.items) kept.now) (λ bytes. IfWhole left
        (λ draft. IfSome (D.Draft.written draft) (λ taken. taken ≡ bytes))) }
    ensures answered { RunAnswer (folder_seen D.files D.faults folder.old folder.new)
        (output_seen K.written K.faults K.shortages out.old out.new) name.now (Ok text.now)
        (option_map (λ r. r.items) kept.now) result }
    ensures folder_count { D.faults folder.old ≤ D.faults folder.new }
    ensures out_count { K.faults out.old ≤ K.faults out.new }
{
    match keep(folder, name, kept, left) {
        FileSave::Kept => print(out, text),
        FileSave::Failed => Err(Ending::Folder),
        FileSave::Mem => Err(Ending::Mem),
    }
}

// Saves the record where there is no text, and says why there is none, or that memory was out for saving it. That
// the folder failed isn't said.
fn explained<D: Drafts>(
    ending: Ending,
    made: &Option<Vec<u8>>,
    name: &Option<Text>,
    folder: &mut D,
    left: Left<D::Draft>,
) -> Ending
    requires whole { IfSome (option_map (λ b. b.items) made.now) (λ bytes. IfWhole left
        (λ draft. IfSome (D.Draft.written draft) (λ taken. taken ≡ bytes))) }
    ensures said { IsSaidAs ending result }
    ensures saved { IsFolderAfter name.now (option_map (λ r. r.items) made.now)
        (D.files folder.old) (D.files folder.new)
        ⊎ IsUnsaved (folder_seen D.files D.faults folder.old folder.new) name.now result }
    ensures count { D.faults folder.old ≤ D.faults folder.new }
{
    match keep(folder, name, made, left) {
        FileSave::Kept | FileSave::Failed => ending,
        FileSave::Mem => {
            drop(ending);
            Ending::Mem
        }
    }
}

// Saves the record of a run, if there is one, under the name, if one is given.
fn keep<D: Drafts>(
    folder: &mut D,
    name: &Option<Text>,
    bytes: &Option<Vec<u8>>,
    left: Left<D::Draft>,
) -> FileSave
    requires whole { IfSome (option_map (λ b. b.items) bytes.now) (λ bytes. IfWhole left
        (λ draft. IfSome (D.Draft.written draft) (λ taken. taken ≡ bytes))) }
    ensures kept { result ≡ FileSave.Kept
        → IsFolderAfter name.now (option_map (λ b. b.items) bytes.now) (D.files folder.old)
        (D.files folder.new) }
    ensures failed { result ≡ FileSave.Failed → (D.files folder.new ≡ D.files folder.old)
        × HasRisen (D.faults folder.old) (D.faults folder.new) × IsSome name.now }
    ensures wanting { result ≡ FileSave.Mem → (D.files folder.new ≡ D.files folder.old)
        × IsSome name.now }
    ensures count { D.faults folder.old ≤ D.faults folder.new }
{
    match (name, bytes) {
        (Some(name), Some(bytes)) => save(folder, name.as_str(), bytes.as_slice(), left),
        _ => {
            put_away(folder, left);
            FileSave::Kept
        }
    }
}

// Puts a text, or says why only a beginning of it was taken.
pub fn print<K: Sink>(out: &mut K, text: &[u8]) -> Result<(), Ending>
    ensures put { PrintAnswer (output_seen K.written K.faults K.shortages out.old out.new)
        (Ok text.now) result }
    ensures count { K.faults out.old ≤ K.faults out.new }
{
    match put_all(out, text) {
        PutAll::Done => Ok(()),
        PutAll::Failed => Err(Ending::Output),
        PutAll::Mem => Err(Ending::Mem),
    }
}
