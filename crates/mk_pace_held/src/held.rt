//! Items that aren't sent yet.
ghost use Rattle.std.specs.Prelude.{◌≡◌};
ghost use Rattle.mk_pace_held.specs.Firsts.{earlier_of, is_no_later};

use mk_base::{SimNo, Tier};

/// When a Step is due: its time, and the moment before which it isn't sent, in milliseconds of the clock.
#[derive(Clone, Copy, Debug, PartialEq, Eq)]
pub struct Due {
    pub at: Tier,
    pub moment: u64,
}

/// An item that isn't sent yet: its place among the entries of the journal, the id that it goes with, and when it is
/// due, if it is a Step.
#[derive(Clone, Copy, Debug, PartialEq, Eq)]
pub struct Held {
    pub place: usize,
    pub id: u64,
    pub due: Option<Due>,
}

/// A Step that isn't sent yet, and before which nothing waits of its simulator.
#[derive(Clone, Copy, Debug, PartialEq, Eq)]
pub struct First {
    pub sim: SimNo,
    pub place: usize,
    pub due: Due,
}

// The first is to be sent before the other: its moment is earlier, or is the same and it was asked for no later.
fn is_no_later(first: First, other: First) -> bool
    ensures { result ≡ is_no_later first other }
{
    first.due.moment < other.due.moment
        || (first.due.moment == other.due.moment && first.place <= other.place)
}

// Which of the two is to be sent before the other.
pub fn earlier_of(best: Option<First>, next: Option<First>) -> Option<First>
    ensures { result ≡ earlier_of best next }
{
    match best {
        None => next,
        Some(first) => match next {
            None => Some(first),
            Some(other) => {
                if is_no_later(first, other) {
                    Some(first)
                } else {
                    Some(other)
                }
            }
        },
    }
}
