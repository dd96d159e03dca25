//! The machine's clock that never goes back, in milliseconds.
ghost use Rattle.std.specs.Prelude.{◌≡◌, ◌≤◌, IfOk};
ghost use Rattle.mk_outside.specs.Fleets.{last_moment};

use mk_outside::LAST_MOMENT;
use std::io;
use std::time::{Clock, Instant};

/// Milliseconds since the clock was first asked, at most 10^18.
#[derive(Drop)]
pub struct Ticks {
    origin: Option<Instant>,
    last: u64,
    ghost range: { last ≤ last_moment },
}

impl Ticks {
    pub fn new() -> Ticks {
        Ticks {
            origin: None,
            last: 0,
        }
    }

    /// How many have passed, never fewer than it gave before.
    pub fn passed<R: Clock>(&mut self, rt: &R) -> io::Result<u64>
        ensures rising { IfOk result (λ n. self.old.last ≤ n) }
        ensures last { IfOk result (λ n. self.new.last ≡ n) }
        ensures kept { self.old.last ≤ self.new.last }
        ensures range { IfOk result (λ n. n ≤ last_moment) }
    {
        let now = Instant::now(rt)?;
        let origin = match self.origin {
            Some(origin) => origin,
            None => now,
        };
        self.origin = Some(origin);
        let passed = now.saturating_duration_since(origin).as_millis();
        let passed = passed.min(u128::from(LAST_MOMENT)) as u64;
        self.last = self.last.max(passed);
        Ok(self.last)
    }
}
