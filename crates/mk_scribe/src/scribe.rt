//! The scribe of a run: an onlooker that writes the run's record.
ghost use Rattle.std.specs.Prelude.{◌≡◌, ◌↔◌, ◌⊎◌, List, Some, true, false, IfSome};
ghost use Rattle.std.specs.List.{list_all};
ghost use Rattle.mk_onlooker.specs.Showings.{AreInRange};
ghost use Rattle.mk_plan.specs.declared.Plan.{Plan};
ghost use Rattle.mk_plan.specs.declared.Entry.{Entry};
ghost use Rattle.mk_record_read.specs.Texts.{record_text};
ghost use Rattle.mk_record_write.specs.Writable.{is_writable};
ghost use Rattle.mk_scribe.specs.Desks.{Closes, Has, IsNew, Notes, desk_of, looks_of};
ghost use Rattle.mk_scribe.specs.Drafts.{HasRefused, draft_of};
ghost use Rattle.mk_scribe.specs.Leaving.{IfEmpty, IfPart, IfWhole, draft_left};
ghost use Rattle.mk_scribe.specs.inner.Steps.{IsAll};

use crate::handing::{hand_over, put_end};
use crate::sheet::{Sheet, Writing};
use mk_onlooker::Onlooker;
use mk_outside::Sink;
use mk_plan::{Entry, Plan};
use std::alloc::Global;

// So many bytes of lines are handed over also where the run doesn't pause.
const BATCH: usize = 65_536;

/// Writes the record of a run into a draft while the run goes. Without a draft it makes no line.
///
/// The lines are put into the draft at each pause of the run, and where they have got long. What the draft refuses is
/// kept, and tried again. Where there is no memory for a line, the scribe writes nothing more, and the draft stays a
/// beginning of the record. Nothing of this ends the run.
#[derive(Drop)]
pub struct Scribe<S> {
    draft: Option<S>,
    sheet: Sheet,
}

/// What a scribe leaves: no draft; one in which nothing was begun; one with a beginning of the record; or one that is
/// the whole record.
#[derive(Drop)]
pub enum Left<S> {
    Nothing,
    Empty(S),
    Part(S),
    Whole(S),
}

impl<S: Sink> Scribe<S> {
    /// A scribe who has written nothing.
    pub fn new(alloc: Global, draft: Option<S>) -> Scribe<S>
        ensures new { IsNew (desk_of S.written S.faults S.shortages result) }
        ensures draft { (desk_of S.written S.faults S.shortages result).draft
            ≡ draft_of S.written S.faults S.shortages draft }
    {
        Scribe {
            draft,
            sheet: Sheet::new(alloc),
        }
    }

    /// Ends the record: all lines that are left and the `end` line are put into the draft, and it is given back. Where
    /// no line was made it is as it was. It is a part where it has refused some, or where the record was given up.
    pub fn close(self) -> Left<S>
        ensures closes { Closes (desk_of S.written S.faults S.shortages self)
            (draft_of S.written S.faults S.shortages (draft_left result)) }
        ensures nothing { (result ≡ Left.Nothing)
            ↔ ((desk_of S.written S.faults S.shortages self).draft.is_there ≡ false) }
        ensures empty { IfEmpty result
            (λ draft. (self.sheet.writing ≡ Writing.Unbegun) × (self.draft ≡ Some draft)) }
        ensures part { IfPart result
            (λ draft. HasRefused (desk_of S.written S.faults S.shortages self).draft
            (draft_of S.written S.faults S.shortages (Some draft))
            ⊎ (self.sheet.writing ≡ Writing.Lost)) }
        ensures whole { IfWhole result (λ draft. (P : Plan) (J : List Entry)
            → Has (desk_of S.written S.faults S.shortages self) P J
            → IfSome (S.written draft) (λ bytes. bytes ≡ record_text P J)) }
    {
        let Scribe { draft, mut sheet } = self;
        let Some(mut sink) = draft else {
            return Left::Nothing;
        };
        match sheet.writing {
            Writing::Unbegun => Left::Empty(sink),
            Writing::Lost => Left::Part(sink),
            Writing::Begun => {
                if end(&mut sink, &mut sheet) {
                    Left::Whole(sink)
                } else {
                    Left::Part(sink)
                }
            }
        }
    }
}

impl<S: Sink> Onlooker for Scribe<S> {
    ghost looks = { looks_of S.written S.faults S.shortages };

    fn look(&mut self, plan: &Plan, fresh: &[Entry], is_pause: bool)
        requires in_range { AreInRange fresh.now }
        ensures looked { looks_of S.written S.faults S.shortages self.old plan.now fresh.now is_pause self.new }
    {
        if let Some(draft) = &mut self.draft {
            note(draft, &mut self.sheet, plan, fresh, is_pause);
        }
    }
}

// Makes the lines of what is shown, and hands all lines over where it is time.
fn note<S: Sink>(draft: &mut S, sheet: &mut Sheet, plan: &Plan, fresh: &[Entry], is_pause: bool)
    requires { list_all is_writable fresh.now ≡ true }
    ensures { Notes
        (record { draft = draft_of S.written S.faults S.shortages (Some draft.old); sheet = sheet.old })
        plan.now fresh.now is_pause
        (record { draft = draft_of S.written S.faults S.shortages (Some draft.new); sheet = sheet.new }) }
{
    sheet.add(plan, fresh);
    if is_pause || sheet.lines.len() >= BATCH {
        hand_over(draft, &mut sheet.lines);
    }
}

// Puts what is left of a record that was begun, and the `end` line after it. It says whether all of it was taken.
fn end<S: Sink>(draft: &mut S, sheet: &mut Sheet) -> bool
    requires { sheet.old.writing ≡ Writing.Begun }
    ensures closes { Closes
        (record { draft = draft_of S.written S.faults S.shortages (Some draft.old); sheet = sheet.old })
        (draft_of S.written S.faults S.shortages (Some draft.new)) }
    ensures all { IsAll result
        (record { draft = draft_of S.written S.faults S.shortages (Some draft.old); sheet = sheet.old })
        (draft_of S.written S.faults S.shortages (Some draft.new)) }
{
    hand_over(draft, &mut sheet.lines);
    if sheet.lines.as_slice().is_empty() {
        put_end(draft, sheet.count)
    } else {
        false
    }
}
