//! Folders in which a file may be written bit by bit.
ghost use Rattle.std.specs.Prelude.{◌≡◌, ◌≤◌, [], IfSome};
ghost use Rattle.mk_outside.specs.Counts.{HasRisen};
ghost use Rattle.mk_drafts.specs.Begun.{IfBegun};
ghost use Rattle.mk_drafts.specs.Finished.{IsFinished};

use mk_outside::{FileSave, Folder, Sink};

/// What came of beginning a draft. `Nowhere` is no failure: no file can lie beside what has this name.
#[derive(Drop)]
pub enum Begun<D> {
    Draft(D),
    Nowhere,
    Failed,
    Mem,
}

/// A folder in which a file may be written bit by bit.
pub trait Drafts: Folder {
    /// What was written of a file so far. It lies beside the file that it is for, under a name of its own, and is none
    /// of the folder's files. It stays there when it is dropped. It counts its own faults.
    type Draft: Sink + Drop;

    /// Begins an empty draft of the file of this name, which need not be there. Where no file can lie beside it, as
    /// beside a pipe, the answer is `Nowhere`.
    fn begin(&mut self, name: &str) -> Begun<Self::Draft>
        ensures count { Self.faults self.old ≤ Self.faults self.new }
        ensures cause { result ≡ Begun.Failed → HasRisen (Self.faults self.old) (Self.faults self.new) }
        ensures kept { Self.files self.new ≡ Self.files self.old }
        ensures empty { IfBegun result
            (λ draft. IfSome (Self.Draft.written draft) (λ taken. taken ≡ [])) };

    /// Makes a draft the file of this name, for which it was begun, and leaves all other files. At `Failed` and `Mem` all
    /// files are as before, and the draft stays where it is.
    fn finish(&mut self, draft: Self::Draft, name: &str) -> FileSave
        ensures count { Self.faults self.old ≤ Self.faults self.new }
        ensures cause { result ≡ FileSave.Failed → HasRisen (Self.faults self.old) (Self.faults self.new) }
        ensures finished { IsFinished result name.now (Self.Draft.written draft)
            (Self.files self.old) (Self.files self.new) };

    /// Takes a draft away. Where that fails the draft stays, and nothing is said of it.
    fn leave(&mut self, draft: Self::Draft)
        ensures count { Self.faults self.old ≤ Self.faults self.new }
        ensures kept { Self.files self.new ≡ Self.files self.old };
}
