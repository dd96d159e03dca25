//! What follows from the definitions.
ghost use Rattle.mk_local.specs.Accepted.{IsMetadataAccepted};
ghost use Rattle.mk_local.specs.Right.{AreBareRepliesSame, AreDataRepliesRight, AreNumbersRead, AreRightInOrder, AreStepRepliesRight};

/// No reply of a simulator within the program to a Step, or to a GetData behind one, is wrong at its place, in a plan
/// that it fits, whatever it was sent before; and it makes no difference how far a Step says that time may advance.
pub fn replies_are_right()
    ensures to_step { AreStepRepliesRight }
    ensures to_get_data { AreDataRepliesRight }
    ensures in_order { AreRightInOrder }
    ensures bare { AreBareRepliesSame }
{}

/// The metadata of each kind passes the tests of a reply to `init`, and says the kind's type and its model.
pub fn metadata_is_accepted()
    ensures { IsMetadataAccepted }
{}

/// The text of a whole number within 64 bits is read as that number.
pub fn numbers_are_read()
    ensures { AreNumbersRead }
{}
