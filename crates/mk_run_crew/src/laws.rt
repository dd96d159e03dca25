//! What holds of every handshake in which nothing went wrong, and where nothing goes wrong.
ghost use Rattle.mk_run_crew.specs.Completing.{AnsweredHandshakesAreFaultless, HandshakesComplete, WithinHandshakesAreFaultless};

use mk_setup::replies_make;

/// A handshake in which nothing went wrong that it can show ends early for want of memory alone.
pub fn handshakes_complete()
    ensures { HandshakesComplete }
{}

/// In a handshake of a well-formed scenario nothing goes wrong that it can show, where each simulator with a link answers
/// each request rightly and says nothing else, those within the program answer by their kinds, the answers make a plan,
/// and the count of faults doesn't rise.
pub fn answered_handshakes_are_faultless()
    ensures { AnsweredHandshakesAreFaultless }
{
    replies_make();
}

/// In a handshake of a well-formed scenario whose simulators are all within the program nothing goes wrong that it can
/// show, where the answers of their kinds make a plan and the count of faults doesn't rise.
pub fn within_handshakes_are_faultless()
    ensures { WithinHandshakesAreFaultless }
{
    answered_handshakes_are_faultless();
}
