//! Whether two values are the same.
ghost use Rattle.std.specs.Prelude.{◌≡◌};
ghost use Rattle.mk_plan_same.specs.Decisions.{Decides};

use mk_base::{Datum, List, SimKind, Text, Tier, Via};

/// What can be compared: parts of plans, and of what is sent.
pub trait Same {
    /// Whether this is the same as another.
    fn same(&self, other: &Self) -> bool
        ensures { Decides result (self.now ≡ other.now) };
}

impl Same for u32 {
    fn same(&self, other: &u32) -> bool {
        *self == *other
    }
}

impl Same for i64 {
    fn same(&self, other: &i64) -> bool {
        *self == *other
    }
}

impl Same for Text {
    fn same(&self, other: &Text) -> bool {
        same_bytes(self.bytes(), other.bytes())
    }
}

impl Same for Datum {
    fn same(&self, other: &Datum) -> bool {
        same_bytes(self.bytes(), other.bytes())
    }
}

impl Same for Option<Datum> {
    fn same(&self, other: &Option<Datum>) -> bool {
        match (self, other) {
            (None, None) => true,
            (Some(value), Some(another)) => value.same(another),
            _ => false,
        }
    }
}

impl Same for Tier {
    fn same(&self, other: &Tier) -> bool {
        self.time == other.time && self.tier == other.tier
    }
}

impl Same for SimKind {
    fn same(&self, other: &SimKind) -> bool {
        match (self, other) {
            (SimKind::TimeBased, SimKind::TimeBased) => true,
            (SimKind::EventBased, SimKind::EventBased) => true,
            (SimKind::Hybrid, SimKind::Hybrid) => true,
            _ => false,
        }
    }
}

impl Same for Via {
    fn same(&self, other: &Via) -> bool {
        match (self, other) {
            (Via::Plain, Via::Plain) => true,
            (Via::Weak, Via::Weak) => true,
            (Via::Shift(width), Via::Shift(another)) => *width == *another,
            _ => false,
        }
    }
}

fn same_bytes(one: &[u8], other: &[u8]) -> bool
    ensures { Decides result (one.now ≡ other.now) }
{
    one == other
}

/// Whether two lists have the same items in the same order.
pub fn same_all<T: Same>(items: &List<T>, others: &List<T>) -> bool
    ensures { Decides result (items.now ≡ others.now) }
{
    if items.len() != others.len() {
        return false;
    }
    let mut place = 0;
    for item in items.as_slice() {
        if !item.same(others.at(place)) {
            return false;
        }
        place += 1;
    }
    true
}
