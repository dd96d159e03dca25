//! Why a reply to `init` is refused.
ghost use Rattle.std.specs.Prelude.{◌≡◌};

use mk_base::{Mem, Text};
use std::fmt;
use thiserror::Error;

/// Why a reply to `init` has no metadata: the first test that it fails, or want of memory.
#[derive(Drop, Error)]
pub enum MetaFault {
    /// It is no object, or `api_version` is missing or no text.
    #[error("no version")]
    NoVersion,
    /// The version, whose text before the first dot isn't `3`.
    #[error("not version 3")]
    Version(Text),
    /// The type, which is there and none of mosaik's three; empty if it isn't a text.
    #[error("no type of simulator")]
    BadType(Text),
    /// `models` is missing, or no object of at most 10,000 members.
    #[error("no models")]
    NoModels,
    /// A model's name, and its member that isn't what it must be; empty if the model is no object.
    #[error("a model is described wrongly")]
    Model(Text, Text),
    /// A model's name, and what its `trigger`, unless it takes any inputs, or its `non-persistent` names, which isn't
    /// one of its attributes.
    #[error("no attribute of the model")]
    TriggerUnknown(Text, Text),
    #[error("out of memory")]
    Mem,
}

impl fmt::Debug for MetaFault {
    fn fmt<W: fmt::Write>(&self, f: &mut fmt::Formatter<W>) -> fmt::Result {
        write!(f, "{self}")
    }
}

impl From<Mem> for MetaFault {
    ghost use Rattle.mk_meta.specs.declared.fault.MetaFault.TheVariants as fault;

    ghost from_gives = { λ _ e. e ≡ fault.Mem };

    fn from(_e: Mem) -> MetaFault {
        MetaFault::Mem
    }
}
