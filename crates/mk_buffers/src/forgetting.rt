//! Giving up: what no question can reach any more is given up, and when outlets are looked at again.
ghost use Rattle.std.specs.Prelude.{◌≡◌, ◌+◌, ◌<◌, ◌||◌, length};
ghost use Rattle.mk_base.specs.declared.tier.Tier.{Tier};
ghost use Rattle.mk_base.specs.Tiers.{up_to};
ghost use Rattle.mk_plan.specs.declared.Plan.{Plan};
ghost use Rattle.mk_plan.specs.Deliveries.{Supply};
ghost use Rattle.mk_buffers_log.specs.Logs.{is_due};
ghost use Rattle.mk_buffers.specs.inner.Marking.{Raised};

use crate::buffers::Buffers;
use crate::outlets::Part;
use mk_base::{SimNo, Tier};

impl Buffers {
    ghost use Rattle.mk_buffers.specs.Standing.{StandFor, HasRaised, IsSwept, next_of};
    ghost use Rattle.mk_buffers.specs.inner.Standing.{IsNoted, HasThinned, IsPartSwept, IsSweptAt, IsLookedAgain};

    /// Tells that `sim` will ask nothing before `at`: its mark becomes the greater of it and `at`. Takes no memory.
    pub fn forget_before(&mut self, sim: SimNo, at: Tier)
        ensures stands { (P : Plan) (S : Supply) → StandFor P self.old S → StandFor P self.new S }
        ensures marks { (P : Plan) (S : Supply) → StandFor P self.old S → sim.0 < length P.sims
            → HasRaised sim.0 at self.old self.new }
    {
        if (sim.0 as usize) < self.sims() {
            self.raise(sim, at);
        }
    }

    // Makes the mark of `sim` the greater of it and `at`, and gives up what no question from there on can reach.
    fn raise(&mut self, sim: SimNo, at: Tier)
        requires { sim.0 < length self.old.marks.marks }
        ensures stands { (P : Plan) (S : Supply) → StandFor P self.old S → StandFor P self.new S }
        ensures marks { (rose : _) × Raised sim.0 at rose self.old.marks self.new.marks }
    {
        if self.marks.raise(sim.0 as usize, at) {
            let mark = self.marks.least();
            for sim in 0..self.feeds.len() {
                self.forget_feed(sim, mark);
            }
        }
    }

    // Gives up what a simulator's outlets needn't keep, if there is something.
    fn forget_feed(&mut self, sim: usize, mark: Tier)
        requires { sim < length self.old.feeds.items }
        ensures thinned { HasThinned mark self.old self.new }
        ensures swept { IsSwept mark sim self.old → IsSwept mark (sim + 1) self.new }
    {
        if is_due(self.next_of(sim), mark) {
            let part = self.feeds[sim];
            let left = self.forget_part(part, mark);
            self.look_again(sim, left);
        }
    }

    // Gives up what these outlets needn't keep, and finds the mark at which they have to be looked at again.
    fn forget_part(&mut self, part: Part, mark: Tier) -> Option<Tier>
        ensures thinned { HasThinned mark self.old self.new }
        ensures marks { self.new.next_marks ≡ self.old.next_marks }
        ensures swept { IsPartSwept mark part result self.new }
    {
        let mut next_mark = None;
        for place in part.first..part.end {
            let next = self.forget_at(place, mark);
            next_mark = least_of(next_mark, next);
        }
        next_mark
    }

    // Gives up what the outlet at the place needn't keep, and finds the mark at which it has to be looked at again.
    fn forget_at(&mut self, place: usize, mark: Tier) -> Option<Tier>
        ensures thinned { HasThinned mark self.old self.new }
        ensures swept { IsSweptAt mark place result self.old self.new }
    {
        if place >= self.outlets.len() {
            return None;
        }
        self.outlets[place].give_up(&self.until, mark)
    }

    // The mark at which a simulator's outlets are looked at again.
    pub(crate) fn next_of(&self, sim: usize) -> Option<Tier>
        ensures { result ≡ next_of self.now sim }
    {
        match self.next_marks.get(sim) {
            Some(next) => *next,
            None => None,
        }
    }

    // Sets the mark at which a simulator's outlets are looked at again.
    pub(crate) fn look_again(&mut self, sim: usize, next: Option<Tier>)
        ensures same { IsNoted self.old self.new }
        ensures next { IsLookedAgain sim next self.old self.new }
    {
        if sim < self.next_marks.len() {
            self.next_marks[sim] = next;
        }
    }
}

// At this mark outlets that are looked at again at the next one are looked at.
fn is_due(next: Option<Tier>, mark: Tier) -> bool
    ensures { result ≡ is_due next mark }
{
    match next {
        Some(next) => next.is_up_to(mark),
        None => false,
    }
}

// The lesser of two times, of which both may be missing.
pub fn least_of(first: Option<Tier>, second: Option<Tier>) -> Option<Tier>
    ensures { (m : Tier) → is_due result m ≡ is_due first m || is_due second m }
{
    match (first, second) {
        (Some(one), Some(other)) => Some(lesser_of(one, other)),
        (Some(one), None) => Some(one),
        (None, other) => other,
    }
}

// The lesser of two times.
fn lesser_of(one: Tier, other: Tier) -> Tier
    ensures { (m : Tier) → up_to result m ≡ up_to one m || up_to other m }
{
    if one.is_up_to(other) { one } else { other }
}
