//! What holds of every paced run.
ghost use Rattle.mk_pace_laws.specs.Laws.{NapsAreWell, PacesAreRight, PacesComplete};

/// A paced run with a plan has said on each link its handshake, items that begin what sequential
/// execution sends over all messages that may come, and a stop, or a beginning of these where the
/// link's last write took nothing or the count of faults rose: all items of its journal before the
/// first Step that was never sent, but where one was too long or memory was wanting. Where it ends
/// by Done, each simulator was sent all that sequential execution sends it. The `max_advance` of each
/// Step is a promise.
pub fn paces_are_right()
    ensures { PacesAreRight }
{}

/// Where a fleet naps whose clock doesn't go back, the links of the run being parked at each nap, the
/// journal was that of all messages heard by then, nobody was ready in it, the last read of each link
/// found nothing, and all that was due was said and nothing of what was early, but where the link's
/// last write took nothing.
pub fn naps_are_well()
    ensures { NapsAreWell }
{}

/// A paced run in which nothing else went wrong ends because nothing is left to do, for want of
/// memory, or because a Step was too late by the bound that was given.
pub fn paces_complete()
    ensures { PacesComplete }
{}
