//! What is said of a file that says no watches.
ghost use Rattle.std.specs.Prelude.{◌≡◌, [], OnOk};
ghost use Rattle.mosaikrun_endings.specs.Watches.{text_of_watches};

use crate::lines::{put, put_after, put_two};
use mk_watch_read::WatchFault;
use std::alloc::AllocError;

// Puts into an empty text what is said of the fault.
pub fn put_watches(out: &mut Vec<u8>, fault: &WatchFault) -> Result<(), AllocError>
    requires { out.old.items ≡ [] }
    ensures { OnOk result (out.new.items ≡ text_of_watches fault.now) }
{
    match fault {
        WatchFault::NotToml => put(out, "watch 1: not TOML"),
        WatchFault::Missing(key) => put_after(out, "watch 2: missing ", key),
        WatchFault::WrongKind(key) => put_after(out, "watch 3: wrong kind ", key),
        WatchFault::UnknownKey(key) => put_after(out, "watch 4: unknown key ", key),
        WatchFault::OutOfRange(key, value) => {
            put_two(out, "watch 5: out of range ", key, " ", value)
        }
        WatchFault::NoRule(key, rule) => put_two(out, "watch 6: no rule ", rule, " at ", key),
        WatchFault::NoEntity(key, entity) => {
            put_two(out, "watch 7: no entity ", entity, " at ", key)
        }
        WatchFault::Mem => put(out, "out of memory"),
    }
}
