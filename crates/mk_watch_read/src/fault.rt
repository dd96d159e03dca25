//! Why a text says no watches.
ghost use Rattle.std.specs.Prelude.{◌≡◌};

use mk_base::{Mem, Text};
use mk_scenario_keys::ScenarioFault;
use std::fmt;
use thiserror::Error;

/// Why a text says no watches: the first test that it fails, or `Mem`, want of memory. The first text
/// of a fault is a key's path, as `watch[0].rule`, its tables counted from 0.
#[derive(Drop, Error)]
pub enum WatchFault {
    /// It is no TOML, or not in UTF-8.
    #[error("not TOML")]
    NotToml,
    /// A key that must stand there doesn't.
    #[error("a key is missing")]
    Missing(Text),
    /// A value isn't of its key's kind.
    #[error("a value of another kind")]
    WrongKind(Text),
    /// A key that isn't known.
    #[error("an unknown key")]
    UnknownKey(Text),
    /// The list has so many tables, by the second text; 1 to 1,000 are allowed.
    #[error("a value out of range")]
    OutOfRange(Text, Text),
    /// No rule has this name, the second text.
    #[error("an unknown rule")]
    NoRule(Text, Text),
    /// No entity has this full id, the second text.
    #[error("an unknown entity")]
    NoEntity(Text, Text),
    #[error("out of memory")]
    Mem,
}

impl fmt::Debug for WatchFault {
    fn fmt<W: fmt::Write>(&self, f: &mut fmt::Formatter<W>) -> fmt::Result {
        write!(f, "{self}")
    }
}

impl From<Mem> for WatchFault {
    ghost use Rattle.mk_watch_read.specs.declared.fault.WatchFault.TheVariants as fault;

    ghost from_gives = { λ _ e. e ≡ fault.Mem };

    fn from(_e: Mem) -> WatchFault {
        WatchFault::Mem
    }
}

// The tests of keys that are made here give the first five and want of memory alone; the others
// stand with those of their form.
impl From<ScenarioFault> for WatchFault {
    ghost use Rattle.mk_watch_read.specs.Watches.{of_key};

    ghost from_gives = { λ fault e. e ≡ of_key fault };

    fn from(fault: ScenarioFault) -> WatchFault {
        match fault {
            ScenarioFault::NotToml => WatchFault::NotToml,
            ScenarioFault::Missing(key) => WatchFault::Missing(key),
            ScenarioFault::WrongKind(key) => WatchFault::WrongKind(key),
            ScenarioFault::UnknownKey(key) => WatchFault::UnknownKey(key),
            ScenarioFault::OutOfRange(key, value) => WatchFault::OutOfRange(key, value),
            ScenarioFault::UnknownSim(key, name) => WatchFault::NoEntity(key, name),
            ScenarioFault::UnknownGroup(key, name) => WatchFault::NoEntity(key, name),
            ScenarioFault::TwoKinds(key) => WatchFault::WrongKind(key),
            ScenarioFault::Uneven(key, _, _) => WatchFault::WrongKind(key),
            ScenarioFault::Taken(key) => WatchFault::WrongKind(key),
            ScenarioFault::Mem => WatchFault::Mem,
        }
    }
}
