//! Why a reply to `create` is refused.
ghost use Rattle.std.specs.Prelude.{◌≡◌};

use mk_base::{Mem, Text};
use std::fmt;
use thiserror::Error;

/// Why a reply to `create` adds no entities: the first test that it fails, or want of memory.
#[derive(Drop, Error)]
pub enum CreateFault {
    /// How many entities were asked for, and how many the reply's list has, children not counted; 0 if it is no list.
    #[error("not as many entities as were asked for")]
    Count(u32, u64),
    /// The place, from 0 and depth first, of what has no eid or no list of children. An eid is a text that is neither
    /// empty nor `time`; children that are missing or null are an empty list.
    #[error("no entity")]
    NoEid(u32),
    /// The eid, which an entity of the simulator has already.
    #[error("an eid twice")]
    TwiceEid(Text),
    /// The eid of an entity that isn't of the model that was created or, for a child, of any model.
    #[error("not of the model")]
    OfType(Text),
    /// An eid, and what its `rel` names, which is no eid of the simulator; empty if `rel` is no list of texts.
    #[error("no related entity")]
    Related(Text, Text),
    /// How many entities there would be by the first one that is too many: 10,001.
    #[error("too many entities")]
    TooMany(u64),
    #[error("out of memory")]
    Mem,
}

impl fmt::Debug for CreateFault {
    fn fmt<W: fmt::Write>(&self, f: &mut fmt::Formatter<W>) -> fmt::Result {
        write!(f, "{self}")
    }
}

impl From<Mem> for CreateFault {
    ghost use Rattle.mk_entities.specs.declared.fault.CreateFault.TheVariants as fault;

    ghost from_gives = { λ _ e. e ≡ fault.Mem };

    fn from(_e: Mem) -> CreateFault {
        CreateFault::Mem
    }
}
