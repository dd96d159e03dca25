//! Two onlookers of one run.
ghost use Rattle.mk_onlooker.specs.Showings.{AreInRange};
ghost use Rattle.mk_progress.specs.Both.{IsShownToBoth, looks_of_both};

use mk_onlooker::Onlooker;
use mk_plan::{Entry, Plan};

/// Two onlookers, each of whom is shown what is shown.
#[derive(Drop)]
pub struct Both<A, B> {
    pub first: A,
    pub second: B,
}

impl<A: Onlooker, B: Onlooker> Onlooker for Both<A, B> {
    ghost looks = { looks_of_both A.looks B.looks };

    fn look(&mut self, plan: &Plan, fresh: &[Entry], is_pause: bool)
        requires in_range { AreInRange fresh.now }
        ensures looked { looks_of_both A.looks B.looks self.old plan.now fresh.now is_pause self.new }
    {
        self.first.look(plan, fresh, is_pause);
        self.second.look(plan, fresh, is_pause);
    }
}

/// What is shown to two onlookers is shown to each of them.
pub fn both_are_shown<A: Onlooker, B: Onlooker>()
    ensures { IsShownToBoth A.looks B.looks }
{}
