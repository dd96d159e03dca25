//! Why bytes have no tree.
ghost use Rattle.std.specs.Prelude.{◌≡◌};

use mk_base::Mem;
use std::fmt;
use thiserror::Error;

/// Why bytes have no tree; or want of memory.
#[derive(Drop, Error)]
pub enum TomlFault {
    /// The bytes aren't UTF-8, or no TOML.
    #[error("no TOML")]
    NotToml,
    #[error("out of memory")]
    Mem,
}

impl fmt::Debug for TomlFault {
    fn fmt<W: fmt::Write>(&self, f: &mut fmt::Formatter<W>) -> fmt::Result {
        write!(f, "{self}")
    }
}

impl From<Mem> for TomlFault {
    ghost use Rattle.mk_scenario_toml.specs.declared.fault.TomlFault.TheVariants as fault;

    ghost from_gives = { λ _ e. e ≡ fault.Mem };

    fn from(_e: Mem) -> TomlFault {
        TomlFault::Mem
    }
}
