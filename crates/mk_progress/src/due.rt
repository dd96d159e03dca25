//! When the clock is asked, and when the next line of progress is due.
ghost use Rattle.std.specs.Prelude.{◌≡◌, ◌≤◌, ◌+◌, ℕ, if◌then◌else◌};
ghost use Rattle.mk_progress.specs.Dues.{is_asking, next_due};

// Nothing is told before so many milliseconds, so that a short run shows nothing.
const FIRST: u64 = 1_000;

// A line stands so many milliseconds at least.
const BETWEEN: u64 = 200;

// So many looks without a pause go by before one at which the clock is asked.
const UNASKED: u8 = 15;

/// When the next line is due, in milliseconds of the stopwatch and from 1,000 on; and how many looks went by since the
/// clock was to be asked.
#[derive(Drop)]
pub struct Due {
    pub next: u64,
    pub looks: u8,
    ghost late: { 1000 ≤ next },
}

impl Due {
    // No look was yet.
    pub fn new() -> Due
        ensures next { result.next ≡ 1000 }
        ensures looks { result.looks ≡ 0 }
    {
        Due {
            next: FIRST,
            looks: 0,
        }
    }

    // Whether the clock is to be asked at this look: at a pause, and after 15 looks at which it wasn't.
    pub fn asks(&mut self, is_pause: bool) -> bool
        ensures asks { result ≡ is_asking is_pause self.old.looks }
        ensures count { self.new.looks ≡ (if is_asking is_pause self.old.looks then 0 else self.old.looks + 1) }
        ensures next { self.new.next ≡ self.old.next }
    {
        if is_pause || self.looks >= UNASKED {
            self.looks = 0;
            return true;
        }
        self.looks += 1;
        false
    }

    // The next line is due 200 milliseconds after this one.
    pub fn put_off(&mut self, passed: u64)
        requires { self.old.next ≤ passed }
        ensures next { self.new.next ≡ next_due passed }
        ensures looks { self.new.looks ≡ self.old.looks }
    {
        self.next = passed.saturating_add(BETWEEN);
    }
}
