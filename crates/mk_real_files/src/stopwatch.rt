//! The machine's clock that never goes back, as a stopwatch.
ghost use Rattle.std.specs.Prelude.{◌≡◌, ◌≤◌};

use mk_progress::Stopwatch;
use std::time::{Clock, Instant};

/// Tells the milliseconds since it was first asked, up to 2^64 - 1. Where the system doesn't tell the time, it tells what
/// it told last.
#[derive(Drop)]
pub struct RealStopwatch<'a, R> {
    rt: &'a R,
    origin: Option<Instant>,
    last: u64,
}

impl<'a, R: Clock> RealStopwatch<'a, R> {
    /// A stopwatch that begins when it is first asked.
    pub fn new(rt: &'a R) -> RealStopwatch<'a, R>
        ensures { result.last ≡ 0 }
    {
        RealStopwatch {
            rt,
            origin: None,
            last: 0,
        }
    }

    // Notes what time it is, and tells how many milliseconds have passed.
    fn note(&mut self, now: Instant) -> u64
        ensures told { result ≡ self.new.last }
        ensures rising { self.old.last ≤ self.new.last }
    {
        let origin = match self.origin {
            Some(origin) => origin,
            None => now,
        };
        self.origin = Some(origin);
        let passed = now.saturating_duration_since(origin).as_millis();
        let passed = passed.min(u128::from(u64::MAX)) as u64;
        self.last = self.last.max(passed);
        self.last
    }
}

impl<'a, R: Clock> Stopwatch for RealStopwatch<'a, R> {
    ghost last = { λ s. s.last };

    fn passed(&mut self) -> u64 {
        match Instant::now(self.rt) {
            Ok(now) => self.note(now),
            Err(_) => self.last,
        }
    }
}
