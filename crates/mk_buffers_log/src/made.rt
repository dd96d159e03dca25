//! An output with the time of its making.
ghost use Rattle.std.specs.Prelude.{◌≡◌, pos, ◌≤ℤ◌, ◌≤◌};
ghost use Rattle.mk_base.specs.Tiers.{latest_time};
ghost use Rattle.mk_base.specs.Limits.{greatest_tier};

use mk_base::{Datum, Tier};
use std::marker::Model;

/// An output, with the tiered time of its making.
#[derive(Drop)]
pub struct Made {
    at: Tier,
    value: Datum,
}

impl Model for Made {
    ghost use Rattle.std.specs.Prelude.{pos, ◌≤ℤ◌, ◌≤◌};
    ghost use Rattle.mk_base.specs.Limits.{greatest_tier};
    ghost use Rattle.mk_base.specs.Tiers.{latest_time};
    ghost use Rattle.mk_plan.specs.Deliveries.{Timed};

    ghost Value = { Timed };

    ghost view = { λ m. record { at = m.at; value = m.value } };

    ghost invariant = { λ m. (pos 0 ≤ℤ m.at.time) × (m.at.time ≤ℤ latest_time)
        × (m.at.tier ≤ greatest_tier) };
}

impl Made {
    /// An output that was made at this time, which is from 0 to 10^18, with a tier of at most 1,000,000.
    pub fn new(at: Tier, value: Datum) -> Made
        requires early { pos 0 ≤ℤ at.time }
        requires late { at.time ≤ℤ latest_time }
        requires low { at.tier ≤ greatest_tier }
        ensures { result ≡ record { at = at; value = value } }
    {
        Made { at, value }
    }

    /// When it was made.
    pub fn at(&self) -> Tier
        ensures same { result ≡ self.now.at }
        ensures early { pos 0 ≤ℤ result.time }
        ensures late { result.time ≤ℤ latest_time }
        ensures low { result.tier ≤ greatest_tier }
    {
        self.at
    }

    /// Its value.
    pub fn value(&self) -> &Datum
        ensures { result.now ≡ self.now.value }
    {
        &self.value
    }
}
