//! The draft of a run's record: begun before the run, and made the record's file after it.
ghost use Rattle.std.specs.Prelude.{◌≡◌, ◌≤◌, [], IfErr, IfOk, IfSome, option_map};
ghost use Rattle.mosaikrun_endings.specs.declared.ending.Ending.TheVariants as ends;
ghost use Rattle.mk_outside.specs.Counts.{HasRisen};
ghost use Rattle.mk_outside.specs.Folders.{after_save};
ghost use Rattle.mk_scribe.specs.Desks.{IsNew, desk_of};
ghost use Rattle.mk_scribe.specs.Leaving.{IfWhole};

use mk_base::Text;
use mk_drafts::{Begun, Drafts};
use mk_outside::FileSave;
use mk_progress::{Both, Progress};
use mk_scribe::{Left, Scribe};
use mosaikrun_endings::Ending;
use std::alloc::Global;

// Who writes the record of a run while it goes: into a draft of the file of this name, if there is one. Where the
// folder can't begin a draft, it won't save a record either, so nothing is to be run. Where no draft can lie beside the
// file, as beside a pipe, and where memory was out for one, the record is saved once the run is over.
pub fn scribe_for<D: Drafts>(
    alloc: Global,
    folder: &mut D,
    name: &Option<Text>,
) -> Result<Scribe<D::Draft>, Ending>
    ensures new { IfOk result
        (λ scribe. IsNew (desk_of D.Draft.written D.Draft.faults D.Draft.shortages scribe)) }
    ensures empty { IfOk result (λ scribe. IfSome
        (desk_of D.Draft.written D.Draft.faults D.Draft.shortages scribe).draft.written
        (λ bytes. bytes ≡ [])) }
    ensures unbegun { IfErr result (λ e. (e ≡ ends.Folder)
        × HasRisen (D.faults folder.old) (D.faults folder.new)) }
    ensures kept { D.files folder.new ≡ D.files folder.old }
    ensures count { D.faults folder.old ≤ D.faults folder.new }
{
    match name {
        Some(name) => match folder.begin(name.as_str()) {
            Begun::Draft(draft) => Ok(Scribe::new(alloc, Some(draft))),
            Begun::Nowhere | Begun::Mem => Ok(Scribe::new(alloc, None)),
            Begun::Failed => Err(Ending::Folder),
        },
        None => Ok(Scribe::new(alloc, None)),
    }
}

// Tells that the run is over, and gives back who looked on first.
pub fn over<A, P: Progress>(both: Both<A, P>) -> A
    ensures { result ≡ both.first }
{
    let Both { first, mut second } = both;
    second.end();
    first
}

// Saves the record of a run. A draft that is all of it takes the file's name. Else the file is written, and then the
// draft is taken away. Where the record isn't saved the draft stays beside the file.
pub fn save<D: Drafts>(folder: &mut D, name: &str, bytes: &[u8], left: Left<D::Draft>) -> FileSave
    requires whole { IfWhole left
        (λ draft. IfSome (D.Draft.written draft) (λ taken. taken ≡ bytes.now)) }
    ensures count { D.faults folder.old ≤ D.faults folder.new }
    ensures cause { result ≡ FileSave.Failed → HasRisen (D.faults folder.old) (D.faults folder.new) }
    ensures saved { D.files folder.new
        ≡ option_map (after_save result name.now bytes.now) (D.files folder.old) }
{
    match left {
        Left::Nothing => folder.save(name, bytes),
        Left::Empty(draft) => save_anew(folder, name, bytes, draft),
        Left::Part(draft) => save_anew(folder, name, bytes, draft),
        Left::Whole(draft) => folder.finish(draft, name),
    }
}

// Writes the file, and then takes the draft away.
fn save_anew<D: Drafts>(folder: &mut D, name: &str, bytes: &[u8], draft: D::Draft) -> FileSave
    ensures count { D.faults folder.old ≤ D.faults folder.new }
    ensures cause { result ≡ FileSave.Failed → HasRisen (D.faults folder.old) (D.faults folder.new) }
    ensures saved { D.files folder.new
        ≡ option_map (after_save result name.now bytes.now) (D.files folder.old) }
{
    match folder.save(name, bytes) {
        FileSave::Kept => {
            folder.leave(draft);
            FileSave::Kept
        }
        FileSave::Failed => FileSave::Failed,
        FileSave::Mem => FileSave::Mem,
    }
}

// Takes a draft away in which nothing was begun.
pub fn put_away<D: Drafts>(folder: &mut D, left: Left<D::Draft>)
    ensures kept { D.files folder.new ≡ D.files folder.old }
    ensures count { D.faults folder.old ≤ D.faults folder.new }
{
    if let Left::Empty(draft) = left {
        folder.leave(draft);
    }
}
