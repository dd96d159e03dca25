//! What holds of every draft.
ghost use Rattle.mk_scribe.specs.Laws.{DraftsAreRecords, DraftsGrow, PausesLeaveNothing};

use mk_outside::Sink;

/// The draft of a scribe who was shown a journal from its begin is a beginning of the journal's record, and only grows.
/// After a look at a pause, it is all of the record of what was shown by then, without the `end` line: so it is unless
/// the draft refused something in that look, or memory was out for a line.
pub fn drafts_are_records<S: Sink>()
    ensures records { DraftsAreRecords S.written S.faults S.shortages }
    ensures grow { DraftsGrow S.written S.faults S.shortages }
    ensures prompt { PausesLeaveNothing S.written S.faults S.shortages }
{}
