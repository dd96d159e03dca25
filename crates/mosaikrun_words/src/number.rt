//! Numbers on the command line.
ghost use Rattle.std.specs.Prelude.{◌≡◌, ◌&&◌, nat_le, Some, None, if◌then◌else◌};
ghost use Rattle.mosaikrun_words.specs.inner.Arranged.{number_in};

use mk_base::{are_digits, number_of};

// The most digits that a number may have.
const MOST_DIGITS: usize = 10;

// The number from the least to the most that the text writes.
pub fn number_in(least: u32, most: u32, text: &str) -> Option<u32>
    ensures { result ≡ number_in least most text.now }
{
    let bytes = text.as_bytes();
    if 1 <= bytes.len() && bytes.len() <= MOST_DIGITS && are_digits(bytes) {
        within(least, most, number_of(bytes))
    } else {
        None
    }
}

fn within(least: u32, most: u32, n: u64) -> Option<u32>
    ensures { result ≡ (if nat_le least n && nat_le n most then Some n else None) }
{
    if u64::from(least) <= n && n <= u64::from(most) {
        Some(n as u32)
    } else {
        None
    }
}
