//! What follows from the definitions.
ghost use Rattle.mk_run_local.specs.Laws.{KindsAreRight, RepliesAreKinds};

/// Where a simulator within the program was sent some items after its setup, its reply to the next one is its kind's to
/// all of them, this one included, and it has come on by this one.
pub fn replies_are_kinds()
    ensures { RepliesAreKinds }
{}

/// No reply of a simulator within the program is wrong at its place, in a plan that fits the kinds.
pub fn kinds_are_right()
    ensures { KindsAreRight }
{}
