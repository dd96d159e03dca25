//! What holds of every resumed run.
ghost use Rattle.mk_resume.specs.Laws.{DoneResumedRunsAreRuns, ResumeEndsExactly, ResumedRunsComplete, ResumedRunsSayRight, RunsAndResumedRunsAreAlike};

/// A resumed run has said on each link its handshake, the first of the items that were free to the
/// simulator, and a stop, or a beginning of these where the link's last write took nothing or the
/// count of faults rose; over all messages that go on from its journal, sequential execution sends
/// these items first, but for their `max_advance`.
pub fn resumed_runs_say_right()
    ensures { ResumedRunsSayRight }
{}

/// A resumed run at whose end nothing is left to do is like one that was never stopped: its journal
/// is a run's, with the messages that its links brought and the replies of the kinds within the
/// program; what was said on its links is right as a run's is; each simulator was sent all that
/// sequential execution sends it; and the `max_advance` of each Step is a promise.
pub fn done_resumed_runs_are_runs()
    ensures { DoneResumedRunsAreRuns }
{}

/// A run and a resumed run of one plan at whose ends nothing is left to do have one journal, if
/// they took the same messages in one order; and if they took the same of each simulator, in
/// whatever order, each was sent the same items, but for their `max_advance`.
pub fn runs_and_resumed_runs_are_alike()
    ensures { RunsAndResumedRunsAreAlike }
{}

/// A resumed run in which nothing went wrong ends because nothing is left to do, or for want of
/// memory.
pub fn resumed_runs_complete()
    ensures { ResumedRunsComplete }
{}

/// A call of `resume` whose handshake was made ends by another plan, by another entry or by a fault
/// among the record's messages wherever these are there, by the plan that the answers make which
/// were heard on the links, or are the replies of the kinds; for the last two memory may be wanting
/// before.
pub fn resume_ends_exactly()
    ensures { ResumeEndsExactly }
{}
