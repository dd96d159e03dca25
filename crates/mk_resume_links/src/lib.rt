//! What a resumed run has to do with its links' logs while its simulators catch up, and what holds at
//! each of its rests. Definitions, and the laws by which the calls of a crew add up to them.
#![tactic(auto)]

ghost use Rattle.mk_resume_links.specs.Laws.{RestsAreWell};

/// What holds at each rest of a resumed run at which all had set up. There its journal counts up to as
/// many messages of each simulator with a link as the record has of it, or as were heard by then if
/// these are more. For each it begins with all messages heard by then; nobody is ready in it, and no
/// request is open within the program; on each link the handshake was said and just those of its items
/// before which no message stands that wasn't heard, or a beginning of these after which a write took
/// nothing; and the last read found nothing.
pub fn rests_are_well()
    ensures { RestsAreWell }
{}
