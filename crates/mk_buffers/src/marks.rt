//! Marks: before which times simulators will ask nothing.
ghost use Rattle.std.specs.Prelude.{◌≡◌, ◌+◌, ◌<◌, length, false, IfOk, pos, slice_get};
ghost use Rattle.mk_base.specs.Tiers.{IsUpTo};
ghost use Rattle.mk_base.specs.declared.tier.Tier.{Tier};
ghost use Rattle.mk_buffers.specs.Marking.{IsLeastMark, IsLow};
ghost use Rattle.mk_buffers.specs.inner.Marking.{AreStarts, HoldsLeast, IsBest, Raised};

use mk_base::{Mem, Tier};
use std::alloc::Global;
use std::marker::Model;

// Before which time each simulator will ask nothing, and a time that is up to all of those of the simulators that ask.
#[derive(Drop)]
pub struct Marks {
    marks: Vec<Tier>,
    asks: Vec<bool>,
    least: Tier,
    holder: usize,
}

impl Model for Marks {
    ghost use Rattle.std.specs.Prelude.{◌≡◌, length};
    ghost use Rattle.mk_buffers.specs.Marking.{Marked, IsLow};
    ghost use Rattle.mk_buffers.specs.inner.Marking.{HoldsLeast};

    ghost Value = { Marked };

    ghost view = { λ m. record { marks = m.marks.items; asks = m.asks.items; least = m.least } };

    ghost invariant = { λ m. (length m.marks.items ≡ length m.asks.items)
        × IsLow m.marks.items m.asks.items m.least
        × HoldsLeast m.marks.items m.asks.items m.least m.holder };
}

impl Marks {
    // Each mark at the start.
    pub fn new(alloc: Global, asks: Vec<bool>) -> Result<Marks, Mem>
        ensures count { IfOk result (λ m. length m.marks ≡ length asks.items) }
        ensures exact { IfOk result (λ m. IsLeastMark m) }
        ensures starts { IfOk result (λ m. AreStarts m.marks) }
        ensures start { IfOk result (λ m. (m.asks ≡ asks.items)
            × (m.least ≡ record { time = pos 0; tier = 0 })) }
    {
        let start = Tier { time: 0, tier: 0 };
        let marks = starts(alloc, asks.len())?;
        let holder = least_asking(marks.as_slice(), asks.as_slice()).unwrap_or(0);
        Ok(Marks {
            marks,
            asks,
            least: start,
            holder,
        })
    }

    pub fn least(&self) -> Tier
        ensures { result ≡ self.now.least }
    {
        self.least
    }

    pub fn len(&self) -> usize
        ensures { result ≡ length self.now.marks }
    {
        self.marks.len()
    }

    pub fn of(&self, sim: usize) -> Tier
        requires { sim < length self.now.marks }
        ensures { slice_get self.now.marks sim ≡ Some result }
    {
        self.marks[sim]
    }

    // Makes the simulator's mark the greater of it and `at`; whether the least mark rose.
    pub fn raise(&mut self, sim: usize, at: Tier) -> bool
        requires { sim < length self.old.marks }
        ensures { Raised sim at result self.old self.new }
    {
        if at.is_up_to(self.marks[sim]) {
            return false;
        }
        self.marks[sim] = at;
        if sim == self.holder {
            raise_least(
                self.marks.as_slice(),
                self.asks.as_slice(),
                &mut self.least,
                &mut self.holder,
            )
        } else {
            false
        }
    }
}

// Makes the least mark that of the simulators that ask; whether it rose.
fn raise_least(marks: &[Tier], asks: &[bool], least: &mut Tier, holder: &mut usize) -> bool
    requires counts { length marks.now ≡ length asks.now }
    requires low { IsLow marks.now asks.now least.old }
    ensures low { IsLow marks.now asks.now least.new }
    ensures holds { HoldsLeast marks.now asks.now least.new holder.new }
    ensures up { IsUpTo least.old least.new }
    ensures same { result ≡ false → least.new ≡ least.old }
{
    match least_asking(marks, asks) {
        Some(place) => {
            *holder = place;
            let mark = marks[place];
            if mark.is_up_to(*least) {
                false
            } else {
                *least = mark;
                true
            }
        }
        None => false,
    }
}

// The start, at each place.
fn start(_place: usize) -> Tier
    ensures { result ≡ record { time = pos 0; tier = 0 } }
{
    Tier { time: 0, tier: 0 }
}

// The start, so many times.
fn starts(alloc: Global, count: usize) -> Result<Vec<Tier>, Mem>
    ensures count { IfOk result (λ v. length v.items ≡ count) }
    ensures low { IfOk result (λ v. AreStarts v.items) }
{
    let mut marks = Vec::with_capacity(alloc, count)?;
    for place in 0..count {
        marks.push(start(place))?;
    }
    Ok(marks)
}

// A simulator that asks and whose mark is the least of those of all that ask; `None` where none asks.
fn least_asking(marks: &[Tier], asks: &[bool]) -> Option<usize>
    requires { length marks.now ≡ length asks.now }
    ensures { IsBest marks.now asks.now (length marks.now) result }
{
    let mut least: Option<usize> = None;
    for sim in 0..marks.len() {
        least = better_of(marks, asks, least, sim);
    }
    least
}

// The better one of the best so far and the next.
fn better_of(marks: &[Tier], asks: &[bool], least: Option<usize>, sim: usize) -> Option<usize>
    requires counts { length marks.now ≡ length asks.now }
    requires there { sim < length marks.now }
    requires best { IsBest marks.now asks.now sim least }
    ensures { IsBest marks.now asks.now (sim + 1) result }
{
    if !asks[sim] {
        return least;
    }
    match least {
        Some(best) => {
            if marks[sim].is_up_to(marks[best]) {
                Some(sim)
            } else {
                Some(best)
            }
        }
        None => Some(sim),
    }
}
