//! Why a simulator isn't begun.
ghost use Rattle.std.specs.Prelude.{◌≡◌};

use mk_base::{Mem, SimNo};
use thiserror::Error;

/// Why a simulator can't be begun; or want of memory. Bytes of a template are counted from 0.
#[derive(Clone, Copy, Debug, PartialEq, Eq, Error)]
pub enum LaunchFault {
    /// The template has no word.
    #[error("an empty command")]
    Empty,
    /// The quotation mark at this byte opens a part that doesn't end.
    #[error("a part that doesn't end")]
    BadQuote(u64),
    /// The per cent sign at this byte begins neither `%(addr)s` nor `%%`.
    #[error("a per cent sign that begins no place")]
    BadPlace(u64),
    /// No kind within the program has this name.
    #[error("an unknown kind")]
    NoKind,
    #[error("out of memory")]
    Mem,
}

/// A simulator that can't be begun, by its place in the scenario, and why.
#[derive(Clone, Copy, Debug, PartialEq, Eq)]
pub struct Unready {
    pub sim: SimNo,
    pub fault: LaunchFault,
}

/// Why not all simulators were begun: the fleet failed at this one; or want of memory.
#[derive(Clone, Copy, Debug, PartialEq, Eq, Error)]
pub enum StartFault {
    #[error("a simulator could not be started")]
    Failed(SimNo),
    #[error("out of memory")]
    Mem,
}

impl From<Mem> for LaunchFault {
    ghost use Rattle.mk_launch.specs.declared.faults.LaunchFault.TheVariants as fault;

    ghost from_gives = { λ _ e. e ≡ fault.Mem };

    fn from(_e: Mem) -> LaunchFault {
        LaunchFault::Mem
    }
}

impl From<Mem> for StartFault {
    ghost use Rattle.mk_launch.specs.declared.faults.StartFault.TheVariants as fault;

    ghost from_gives = { λ _ e. e ≡ fault.Mem };

    fn from(_e: Mem) -> StartFault {
        StartFault::Mem
    }
}
