//! The system's files, by their paths.
ghost use Rattle.std.specs.Prelude.{◌≡◌, ◌≢◌, ◌≤◌, IfOk};
ghost use Rattle.mk_outside.specs.Counts.{HasRisen};

use crate::anew::write_anew;
use crate::draft::{RealDraft, finish_draft, new_draft, remove_draft};
use mk_drafts::{Begun, Drafts};
use mk_outside::{FILE_LIMIT, FileRead, FileSave, Folder};
use std::fs::{self, Files, OpenFile};
use std::io::{self, ErrorKind, Read};

/// The system's files. It tells nothing of what they hold, and counts in its faults the calls that answer `Failed`.
#[derive(Drop)]
pub struct RealFolder<'a, R> {
    rt: &'a R,
    faults: u64,
}

impl<'a, R> RealFolder<'a, R> {
    /// The files that the runtime reaches.
    pub fn new(rt: &'a R) -> RealFolder<'a, R>
        ensures { result.faults ≡ 0 }
    {
        RealFolder { rt, faults: 0 }
    }
}

impl<'a, R: Files + AllocGlobal> Folder for RealFolder<'a, R> {
    ghost use Rattle.std.specs.Prelude.{None};

    ghost faults = { λ f. f.faults };

    ghost files = { λ _. None };

    fn read(&mut self, name: &str, into: &mut Vec<u8>) -> FileRead {
        let answer = read_file(self.rt, name, into);
        if let Ok(FileRead::Whole) = answer {
            return FileRead::Whole;
        }
        into.clear();
        match answer {
            Ok(answer) => answer,
            Err(e) if e.kind() == ErrorKind::NotFound => FileRead::Missing,
            Err(e) if e.kind() == ErrorKind::OutOfMemory => FileRead::Mem,
            Err(_) => {
                self.faults = self.faults.saturating_add(1);
                FileRead::Failed
            }
        }
    }

    fn save(&mut self, name: &str, bytes: &[u8]) -> FileSave {
        answered(write_anew(self.rt, name, bytes), &mut self.faults)
    }
}

impl<'a, R: Files + AllocGlobal> Drafts for RealFolder<'a, R> {
    type Draft = RealDraft<R::File>;

    fn begin(&mut self, name: &str) -> Begun<RealDraft<R::File>> {
        match new_draft(self.rt, name) {
            Ok(Some(draft)) => Begun::Draft(draft),
            Ok(None) => Begun::Nowhere,
            Err(e) if e.kind() == ErrorKind::OutOfMemory => Begun::Mem,
            Err(_) => {
                self.faults = self.faults.saturating_add(1);
                Begun::Failed
            }
        }
    }

    fn finish(&mut self, draft: RealDraft<R::File>, _name: &str) -> FileSave {
        answered(finish_draft(self.rt, draft), &mut self.faults)
    }

    fn leave(&mut self, draft: RealDraft<R::File>) {
        remove_draft(self.rt, draft);
    }
}

// The answer of a save that came to this. One that failed is counted in the faults.
fn answered(done: io::Result<()>, faults: &mut u64) -> FileSave
    ensures count { faults.old ≤ faults.new }
    ensures cause { result ≡ FileSave.Failed → HasRisen faults.old faults.new }
{
    match done {
        Ok(()) => FileSave::Kept,
        Err(e) if e.kind() == ErrorKind::OutOfMemory => FileSave::Mem,
        Err(_) => {
            *faults = faults.saturating_add(1);
            FileSave::Failed
        }
    }
}

// Reads a file that isn't too long.
fn read_file<R: Files>(rt: &R, name: &str, into: &mut Vec<u8>) -> io::Result<FileRead>
    ensures { IfOk result (λ answer. answer ≢ FileRead.Failed) }
{
    let file = fs::open(rt, name)?;
    let length = file.metadata()?.len();
    if length > FILE_LIMIT {
        return Ok(FileRead::TooLong(length));
    }
    read_whole(file, into)
}

// Reads what is left of a file, unless that is too long: then one byte more than the limit is read, and its count
// given.
fn read_whole<F: Read + Drop>(file: F, into: &mut Vec<u8>) -> io::Result<FileRead>
    ensures { IfOk result (λ answer. answer ≢ FileRead.Failed) }
{
    file.take(FILE_LIMIT + 1).read_to_end(into)?;
    let length = into.len() as u64;
    if length > FILE_LIMIT {
        return Ok(FileRead::TooLong(length));
    }
    Ok(FileRead::Whole)
}
