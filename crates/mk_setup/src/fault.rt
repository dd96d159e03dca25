//! Why a handshake makes no plan.
ghost use Rattle.std.specs.Prelude.{◌≡◌};

use mk_base::{Mem, SimNo, Text};
use mk_connect::ConnectFault;
use mk_entities::CreateFault;
use mk_meta::MetaFault;
use std::fmt;
use thiserror::Error;

/// Why a handshake makes no plan: the first test that fails, or want of memory.
#[derive(Drop, Error)]
pub enum SetupFault {
    /// The simulator's reply to `init` has no metadata.
    #[error("no metadata")]
    Meta(SimNo, MetaFault),
    /// The simulator's reply to `create` adds no entities.
    #[error("no entities")]
    Create(SimNo, CreateFault),
    /// A group can't be created, or a connection can't be made.
    #[error("no connection")]
    Connect(ConnectFault),
    /// What came of the simulator is no reply to the outstanding request, or no request is outstanding.
    #[error("an unasked message")]
    Unasked(SimNo),
    /// The simulator's failure reply to the outstanding request, and its text.
    #[error("a failure reply")]
    Failed(SimNo, Text),
    #[error("out of memory")]
    Mem,
}

impl fmt::Debug for SetupFault {
    fn fmt<W: fmt::Write>(&self, f: &mut fmt::Formatter<W>) -> fmt::Result {
        write!(f, "{self}")
    }
}

impl From<Mem> for SetupFault {
    ghost use Rattle.mk_setup.specs.declared.fault.SetupFault.TheVariants as fault;

    ghost from_gives = { λ _ e. e ≡ fault.Mem };

    fn from(_e: Mem) -> SetupFault {
        SetupFault::Mem
    }
}
