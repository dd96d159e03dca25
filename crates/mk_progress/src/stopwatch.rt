//! Clocks that tell how long a run takes.
ghost use Rattle.std.specs.Prelude.{◌≡◌, ◌≤◌, ℕ};

/// Tells how many milliseconds have passed since it was begun.
///
/// `last` is what it told last, and 0 before it was asked.
pub trait Stopwatch {
    ghost last: { Self → ℕ };

    /// How many have passed, never fewer than it told before.
    fn passed(&mut self) -> u64
        ensures told { result ≡ last self.new }
        ensures rising { last self.old ≤ last self.new };
}
