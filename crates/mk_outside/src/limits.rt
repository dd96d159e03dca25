//! The limits of what lies outside.

/// The greatest number of milliseconds that a clock tells: 10^18.
pub const LAST_MOMENT: u64 = 1_000_000_000_000_000_000;

/// The most bytes of a file that is read.
pub const FILE_LIMIT: u64 = 536_870_912;
