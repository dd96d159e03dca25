//! Why a record isn't read.
use thiserror::Error;

/// Why a text is no record: `Line` has the line, from 1, and the number of the fault; `Mem` is want of memory.
///
/// 1: the line isn't of a kind that may stand there, or not of its kind's form. 2: a number is
/// outside its limits, a reference is to nothing that stands before, or a type or via is unknown.
/// 3: the plan before the first `ask`, `got` or `end` line isn't valid. 4: the number of `end` isn't the
/// number of `ask` and `got` lines. 5: the text ends before a whole `end` line; the line is the one behind
/// the last whole one. 6: bytes stand after the `end` line; the line is the one behind it.
#[derive(Debug, Drop, Error)]
pub enum RecordFault {
    #[error("no record")]
    Line(u64, u8),
    #[error("out of memory")]
    Mem,
}

// Why a line, or a part of it, isn't read.
#[derive(Clone, Copy, Debug, PartialEq, Eq)]
pub enum LineFault {
    Bad(u8),
    Mem,
}

// The line isn't of a kind that may stand there, or not of its kind's form.
pub const MISFORMED: LineFault = LineFault::Bad(1);

// A number is outside its limits, a reference is to nothing before it, or a type or via is unknown.
pub const OUT_OF_LIMITS: LineFault = LineFault::Bad(2);

// The plan isn't valid.
pub const INVALID: LineFault = LineFault::Bad(3);

// The number of `end` isn't that of the lines of entries.
pub const MISCOUNTED: LineFault = LineFault::Bad(4);

impl From<mk_base::Mem> for LineFault {
    ghost use Rattle.std.specs.Prelude.{◌≡◌};
    ghost use Rattle.mk_record_read.specs.declared.faults.LineFault.TheVariants as fault;

    ghost from_gives = { λ _ e. e ≡ fault.Mem };

    fn from(_e: mk_base::Mem) -> LineFault {
        LineFault::Mem
    }
}
