//! How the sinks of the system write.
ghost use Rattle.std.specs.Prelude.{◌≡◌, ◌≤◌, None};
ghost use Rattle.std.specs.Io.{WritesAtMost};
ghost use Rattle.mk_outside.specs.Counts.{HasRisen};
ghost use Rattle.mk_outside.specs.Sinks.{Took};

use mk_outside::Wrote;
use std::io::{self, ErrorKind, Write};

/// Puts a piece, by one write. A call that answers `Failed` is counted in the faults, and one that answers `Mem` in the
/// shortages.
pub fn put<W: Write>(to: &mut W, bytes: &[u8], faults: &mut u64, shortages: &mut u64) -> Wrote
    ensures count { faults.old ≤ faults.new }
    ensures cause { result ≡ Wrote.Failed → HasRisen faults.old faults.new }
    ensures wants { shortages.old ≤ shortages.new }
    ensures want { result ≡ Wrote.Mem → HasRisen shortages.old shortages.new }
    ensures taken { Took result bytes.now None None }
{
    match write(to, bytes) {
        Ok(count) if count > 0 => Wrote::Took(count),
        Err(e) if e.kind() == ErrorKind::OutOfMemory => {
            *shortages = shortages.saturating_add(1);
            Wrote::Mem
        }
        _ => {
            *faults = faults.saturating_add(1);
            Wrote::Failed
        }
    }
}

// One write, again where it was interrupted.
fn write<W: Write>(to: &mut W, bytes: &[u8]) -> io::Result<usize>
    ensures { WritesAtMost result bytes.now }
{
    for _ in 0..u64::MAX {
        match to.write(bytes) {
            Err(e) if e.kind() == ErrorKind::Interrupted => {}
            answer => return answer,
        }
    }
    Ok(0)
}
