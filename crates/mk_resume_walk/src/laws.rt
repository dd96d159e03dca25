//! What holds of the walk through a journal.
ghost use Rattle.mk_resume_walk.specs.Laws.{EntriesAreCounted, FreeItemsAlternate, FreeItemsGoOn, TurnsAlternate, WalksGoOn};

/// Where an index was asked for a simulator's next entry, one more of its entries was gone through
/// behind that one.
pub fn entries_are_counted()
    ensures { EntriesAreCounted }
{}

/// The items that a simulator can be sent once it has sent some of its messages again begin those
/// that it can be sent after one message more. They are all its items once it has sent all its
/// messages, and whatever comes later in the journal adds nothing to them before.
pub fn free_items_go_on()
    ensures { FreeItemsGoOn }
{}

/// Entry by entry of its own, a simulator is sent just what is free, and waits for just the message
/// that it has to send again.
pub fn walks_go_on()
    ensures { WalksGoOn }
{}

/// In an orderly journal without a fault a simulator's items and messages alternate.
pub fn turns_alternate()
    ensures { TurnsAlternate }
{}

/// So of the items that a simulator can be sent at most one isn't answered by the messages that it
/// has sent again; and one isn't, where it has another to send again.
pub fn free_items_alternate()
    ensures { FreeItemsAlternate }
{}
