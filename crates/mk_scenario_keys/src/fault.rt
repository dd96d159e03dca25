//! Why a text is no scenario.
ghost use Rattle.std.specs.Prelude.{◌≡◌};

use mk_base::{Mem, Text};
use std::fmt;
use thiserror::Error;

/// Why a text is no scenario: the first test that it fails, or want of memory. The first text of a fault, but for
/// `Taken`, is the path of a key, an item or a table, as `connect[2].attrs[0]`, its tables and items counted from 0.
#[derive(Drop, Error)]
pub enum ScenarioFault {
    /// It is no TOML 1.1 in UTF-8.
    #[error("not TOML")]
    NotToml,
    /// A key that must stand there doesn't.
    #[error("a key is missing")]
    Missing(Text),
    /// A value isn't of its key's kind.
    #[error("a value of another kind")]
    WrongKind(Text),
    /// A key that isn't known, or may not stand there.
    #[error("an unknown key")]
    UnknownKey(Text),
    /// A value that isn't in its key's range: the number, the length of the list, or the text.
    #[error("a value out of range")]
    OutOfRange(Text, Text),
    /// The id of a simulator that isn't there, behind its path.
    #[error("an unknown simulator")]
    UnknownSim(Text, Text),
    /// The id of a group that isn't there, behind its path.
    #[error("an unknown group")]
    UnknownGroup(Text, Text),
    /// A simulator begun in two ways, or a connection of two kinds, by its table's path.
    #[error("two kinds")]
    TwoKinds(Text),
    /// A connection's sides have so many entities, neither one nor equally many, by its table's path.
    #[error("sides that don't pair")]
    Uneven(Text, u32, u32),
    /// A group's id that an earlier table has.
    #[error("a group's id is taken")]
    Taken(Text),
    #[error("out of memory")]
    Mem,
}

impl fmt::Debug for ScenarioFault {
    fn fmt<W: fmt::Write>(&self, f: &mut fmt::Formatter<W>) -> fmt::Result {
        write!(f, "{self}")
    }
}

impl From<Mem> for ScenarioFault {
    ghost use Rattle.mk_scenario_keys.specs.declared.fault.ScenarioFault.TheVariants as fault;

    ghost from_gives = { λ _ e. e ≡ fault.Mem };

    fn from(_e: Mem) -> ScenarioFault {
        ScenarioFault::Mem
    }
}
