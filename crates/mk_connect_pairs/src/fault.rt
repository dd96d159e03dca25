//! Why a scenario's groups and connections make no plan.
ghost use Rattle.std.specs.Prelude.{◌≡◌};

use mk_base::{Mem, Text};
use std::fmt;
use thiserror::Error;

/// Why a scenario's groups and connections make no plan: the first test that fails, or want of memory. An entity is
/// named by its full id: its simulator's id, a dot and its eid.
#[derive(Drop, Error)]
pub enum ConnectFault {
    /// A full id, as the scenario has it, that no entity has.
    #[error("no such entity")]
    NoEntity(Text),
    /// A source and an attribute that its model doesn't have.
    #[error("no such output")]
    NoSourceAttr(Text, Text),
    /// A target and an attribute that its model doesn't have and doesn't take.
    #[error("no such input")]
    NoTargetAttr(Text, Text),
    /// A simulator's id, and the model of a group of it, which the simulator doesn't have or doesn't offer.
    #[error("no public model")]
    NotPublic(Text, Text),
    /// A model, and a parameter of a group of it, which the model doesn't have.
    #[error("no such parameter")]
    UnknownParam(Text, Text),
    /// A target, its attribute, and a source that is connected to it already.
    #[error("connected twice")]
    Twice(Text, Text, Text),
    /// A target, and the source's attribute, whose time-shifted connection has no initial value.
    #[error("no initial value")]
    NoInitial(Text, Text),
    /// How many connections there would be by the first one that is too many.
    #[error("too many connections")]
    TooMany(u64),
    #[error("out of memory")]
    Mem,
}

impl fmt::Debug for ConnectFault {
    fn fmt<W: fmt::Write>(&self, f: &mut fmt::Formatter<W>) -> fmt::Result {
        write!(f, "{self}")
    }
}

impl From<Mem> for ConnectFault {
    ghost use Rattle.mk_connect_pairs.specs.declared.fault.ConnectFault.TheVariants as fault;

    ghost from_gives = { λ _ e. e ≡ fault.Mem };

    fn from(_e: Mem) -> ConnectFault {
        ConnectFault::Mem
    }
}
