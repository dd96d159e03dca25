//! What holds of the text and of the record of every paced run.
ghost use Rattle.mosaikrun_paced.specs.Laws.{PacedRecordsAreThere, PacedTextsAreSequential, PacesAreOneText};

use mk_pace::paces_are_right;

/// The report of a paced run is that of what sequential execution sends, over all messages that the links have brought
/// and whatever may still come on them: the clock stands nowhere in it.
pub fn paced_texts_are_sequential()
    ensures { PacedTextsAreSequential }
{
    paces_are_right();
}

/// A run and a paced run by the same plan, over whatever fleets, clocks and paces, have one report, if each has one,
/// where the simulators answer alike.
pub fn paces_are_one_text()
    ensures { PacesAreOneText }
{
    paces_are_right();
}

/// Where a record is wanted it is there, but for want of memory, wherever all is done, the run met a wrong message, a
/// failure, the loop limit or the limit of entries, a Step was too late, the whole frame of a Step was said on a link,
/// or the fleet slept; and each record is that of the plan and the journal of a paced run.
pub fn paced_records_are_there()
    ensures { PacedRecordsAreThere }
{}
