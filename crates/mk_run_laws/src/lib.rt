//! What the log of a call means: the messages that were heard on a link, what may be said on it, what a run's journal
//! has to do with both, and what holds at each rest. Definitions, and the laws by which the calls of a crew add up to
//! them.
#![tactic(auto)]

ghost use Rattle.mk_plan.specs.Plans.{IsValidPlan};
ghost use Rattle.mk_run_laws.specs.Laws.{TakenAreHeard, LinksSayRight, DoneIsAll, DoneAnswers, StepsPromise, RestsAreWell, KindsAnswer, PlacesAreLinks};

use mk_plan::Plan;

/// However messages are taken off the bytes of a link, they are the first that were heard, in order.
pub fn taken_are_heard()
    ensures { TakenAreHeard }
{}

/// On each link of a run the items said, behind the handshake and before a stop, begin what sequential execution sends
/// over all messages that may come.
pub fn links_say_right(plan: &Plan)
    requires { IsValidPlan plan.now }
    ensures { LinksSayRight plan.now }
{}

/// Where nothing is left to do, each simulator was sent all that sequential execution sends it over all messages that
/// may come, and no turn is cut.
pub fn done_is_all(plan: &Plan)
    requires { IsValidPlan plan.now }
    ensures { DoneIsAll plan.now }
{}

/// Where nothing is left to do, all messages that continue the journal answer by kind.
pub fn done_answers(plan: &Plan)
    requires { IsValidPlan plan.now }
    ensures { DoneAnswers plan.now }
{}

/// The max_advance of each Step is a promise over all messages that may come where its simulator sends no more.
pub fn steps_promise(plan: &Plan)
    requires { IsValidPlan plan.now }
    ensures { StepsPromise plan.now }
{}

/// At each rest of a run, what the journal was then has all messages heard by then and all replies of simulators within
/// the program, nobody is ready in it, and all of its items were said, or the last write took nothing.
pub fn rests_are_well()
    ensures { RestsAreWell }
{}

/// Where the replies of the kinds are right, there are messages that answer by kind, whatever the other simulators
/// send.
pub fn kinds_answer(plan: &Plan)
    ensures { KindsAnswer plan.now }
{}

/// The places that a start of all simulators leaves are the simulators' links, by their order among those that have
/// one.
pub fn places_are_links()
    ensures { PlacesAreLinks }
{}
