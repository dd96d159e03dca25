//! Laws of a run's record that is replayed: it is read as the run's plan and journal, the replay has that journal, and
//! `replay` says what was said of the run.
#![tactic(auto)]

ghost use Rattle.std.specs.Prelude.{◌≤◌, List, length};
ghost use Rattle.mk_plan.specs.declared.Plan.{Plan};
ghost use Rattle.mk_plan.specs.declared.Entry.{Entry};
ghost use Rattle.mk_plan.specs.Orderly.{IsEager};
ghost use Rattle.mosaikrun_again.specs.Again.{IsReplayOf, ReplayHasJournal, ReplaysAreRuns};
ghost use Rattle.mosaikrun_again.specs.Readable.{RunsAreReadable};
ghost use Rattle.mosaikrun_again.specs.Saying.{RecordsSayTheSame, ReplaysSayTheSame};

/// Each replay of the messages, as they came, of an eager journal that keeps to its plan's limit of entries has a
/// journal that begins with it, and is the same where nothing was to be sent at its end.
pub fn replay_has_the_journal()
    ensures { (P : Plan) → (J : List Entry) → (K : List Entry) → IsEager P J → length J ≤ P.entries
        → IsReplayOf P J K → ReplayHasJournal P J K }
{}

/// The replay of a run's messages, as they came, has the run's journal; where memory was wanting, or an item was too
/// long, it has one that begins with it. It is done where the run was, and ends by the same wrong message, failure or
/// loop limit; where the run ended by the limit of entries, it ends by that, or since messages are missing.
pub fn replay_is_the_run()
    ensures { ReplaysAreRuns }
{}

/// What `replay` makes of a run's record that is read as its plan and journal, where memory isn't wanting, is what was
/// said of the run: its report where it was done, and else the same ending, where that was a wrong message, a failure
/// or the loop limit. Where it was the limit of entries, it is the same, or that messages are missing.
pub fn replay_says_the_same()
    ensures { ReplaysSayTheSame }
{}

/// The plan and the journal of a run may stand in a record, where each message that came on a link nests no deeper than
/// 126, its own list counted.
pub fn runs_are_readable()
    ensures { RunsAreReadable }
{}

/// Where each message that came on a link nests no deeper than 126, the record of a run is read as its plan and
/// journal, its replay has to do with the run what `replay_is_the_run` says, and `replay` over its bytes, where memory
/// isn't wanting, makes the text that `run` made, or tells the fault that `run` told; for the limit of entries it may
/// tell that messages are missing, where one had come for which there was no room.
pub fn records_say_the_same()
    ensures { RecordsSayTheSame }
{}
