//! What holds of the text and of the record of every run.
ghost use Rattle.mosaikrun_run.specs.Laws.{AlikeIsOneText, RecordsAreThere, TextsAreSequential, WithinIsOneText};

use mk_run::kinds_fit;

/// The text of a run, in either form, is that of what sequential execution sends, over all messages that the links have
/// brought and whatever may still come on them.
pub fn texts_are_sequential()
    ensures { TextsAreSequential }
{}

/// Two runs of one scenario over whatever fleets, with the same replies to the handshake, have one text, if each has
/// one, where the simulators answer alike: whichever simulator answered first.
pub fn alike_is_one_text()
    ensures { AlikeIsOneText }
{}

/// Where a record is wanted it is there, but for want of memory, wherever all is done, the run met a wrong message, a
/// failure, the loop limit or the limit of entries, or the whole frame of a Step was said on a link; and each record is
/// that of the plan and the journal of a run.
pub fn records_are_there()
    ensures { RecordsAreThere }
{}

/// Two runs of one scenario whose simulators are all within the program, with the same kinds, have the same text, if
/// each has one: the report is a function of the bytes of the scenario's file. They have the same plan, and say the
/// same to each simulator and hear the same from it.
pub fn within_is_one_text()
    ensures { WithinIsOneText }
{
    kinds_fit();
}
