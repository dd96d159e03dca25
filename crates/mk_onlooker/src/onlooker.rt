//! Onlookers, and how a journal is shown to one.
ghost use Rattle.std.specs.Prelude.{◌≡◌, ◌≤◌, List, Bool, length, drop};
ghost use Rattle.mk_plan.specs.declared.Plan.{Plan};
ghost use Rattle.mk_plan.specs.declared.Entry.{Entry};
ghost use Rattle.mk_onlooker.specs.Showings.{AreInRange};

use mk_plan::{Entry, Journal, Plan};

/// Who looks on at a run. It can't end the run, and it changes nothing of what is sent.
///
/// `looks` is what one look comes to: the onlooker as it was, the run's plan, the entries that it is shown, whether the
/// run pauses then, and the onlooker as it is afterwards.
pub trait Onlooker {
    ghost looks: { Self → Plan → List Entry → Bool → Self → Type 0 };

    /// Is shown what the journal of a run of this plan has got since it was shown last. At a pause the run may wait for
    /// others before it shows more.
    fn look(&mut self, plan: &Plan, fresh: &[Entry], is_pause: bool)
        requires in_range { AreInRange fresh.now }
        ensures looked { looks self.old plan.now fresh.now is_pause self.new };
}

/// Nobody looks on.
#[derive(Clone, Copy, Debug, PartialEq, Eq)]
pub struct Nobody;

impl Onlooker for Nobody {
    ghost looks = { λ old P fresh pause new. new ≡ old };

    fn look(&mut self, _plan: &Plan, _fresh: &[Entry], _is_pause: bool)
        requires in_range { AreInRange _fresh.now }
    {}
}

/// Shows the entries of a journal behind the first ones, which were shown before.
pub fn show<O: Onlooker>(
    onlooker: &mut O,
    plan: &Plan,
    journal: &Journal,
    shown: usize,
    is_pause: bool,
)
    requires there { shown ≤ length journal.now.entries }
    requires in_range { AreInRange journal.now.entries }
    ensures looked { O.looks onlooker.old plan.now (drop shown journal.now.entries) is_pause onlooker.new }
{
    let entries = journal.entries.as_slice();
    onlooker.look(plan, &entries[shown..], is_pause);
}
