//! Drafts of the system's files.
ghost use Rattle.std.specs.Prelude.{◌≡◌};

use crate::anew::{Part, open_beside, settle_part};
use crate::writing::put;
use mk_outside::{Sink, Wrote};
use std::alloc::AllocGlobal;
use std::fs::{self, Files};
use std::io::{self, Write};

/// A file beside the one that it is for. Each piece is handed to the system at once; nothing waits until it is on the
/// disk. It tells nothing of what it took, and counts the calls that answer `Failed` in its faults, and those that
/// answer `Mem` in its shortages.
#[derive(Drop)]
pub struct RealDraft<F> {
    part: Part<F>,
    faults: u64,
    shortages: u64,
}

// Makes an empty draft of the file of this name; none where no file can lie beside it.
pub fn new_draft<R: Files + AllocGlobal>(
    rt: &R,
    name: &str,
) -> io::Result<Option<RealDraft<R::File>>> {
    match open_beside(rt, name)? {
        Some(part) => Ok(Some(RealDraft {
            part,
            faults: 0,
            shortages: 0,
        })),
        None => Ok(None),
    }
}

// Puts a draft in the place of the file that it is for, to which the name led when it was begun. Where that fails it
// stays.
pub fn finish_draft<R: Files>(rt: &R, draft: RealDraft<R::File>) -> io::Result<()> {
    let mut part = draft.part;
    settle_part(rt, &mut part)
}

// Removes a draft. Where that fails it stays.
pub fn remove_draft<R: Files>(rt: &R, draft: RealDraft<R::File>) {
    let _ = fs::remove_file(rt, draft.part.name.as_str());
}

impl<F: Write> Sink for RealDraft<F> {
    ghost use Rattle.std.specs.Prelude.{None};

    ghost faults = { λ k. k.faults };

    ghost shortages = { λ k. k.shortages };

    ghost written = { λ _. None };

    fn put(&mut self, bytes: &[u8]) -> Wrote {
        put(
            &mut self.part.file,
            bytes,
            &mut self.faults,
            &mut self.shortages,
        )
    }
}
