//! What holds of the text of every resumed run.
ghost use Rattle.mosaikrun_resume.specs.Laws.{ResumedTextsAreSequential, SameMessagesAreOneText};

/// The report of a resumed run is that of what sequential execution sends, over the messages of its journal and
/// whatever goes on with them; and each link brought, behind its handshake, all that the journal has of its simulator.
pub fn resumed_texts_are_sequential()
    ensures { ResumedTextsAreSequential }
{}

/// Where a run and a resumed run of one plan both have a report and got the same messages of each simulator, they sent
/// each the same items, but for their `max_advance`, and have one report.
pub fn same_messages_are_one_text()
    ensures { SameMessagesAreOneText }
{}
