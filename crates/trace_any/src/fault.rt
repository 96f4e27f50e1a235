//! Why a reading stops.

use bound_base::NoMemory;
use bound_io::LineFault;
use thiserror::Error;
use trace_lines::LineKind;

/// Why no request is given.
#[derive(Clone, Copy, Debug, Error, PartialEq, Eq)]
pub enum TraceFault {
    /// A line of the trace is refused. Lines count from 1.
    #[error("line {line} is refused: {kind:?}")]
    BadLine { line: u64, kind: LineKind },
    /// A read failed.
    #[error("a read failed")]
    ReadFault,
    /// The bytes through this line pass the limit.
    #[error("the trace has too many bytes")]
    InputTooLong,
    /// This request passes the limit.
    #[error("the trace has too many requests")]
    TooManyRequests,
    /// There was not enough memory.
    #[error("there was not enough memory")]
    NoMemory,
}

impl From<NoMemory> for TraceFault {
    ghost use Rattle.std.specs.Prelude.{◌≡◌};
    ghost use Rattle.trace_any.specs.declared.fault.TraceFault.TheVariants.{NoMemory as OutOfMemory};

    ghost from_gives = { λ _ f. f ≡ OutOfMemory };

    fn from(_: NoMemory) -> Self {
        TraceFault::NoMemory
    }
}

impl From<LineFault> for TraceFault {
    ghost use Rattle.std.specs.Prelude.{◌≡◌};
    ghost use Rattle.trace_any.specs.Readings.{fault_of};

    ghost from_gives = { λ e f. f ≡ fault_of e };

    fn from(fault: LineFault) -> Self {
        match fault {
            LineFault::ReadFault => TraceFault::ReadFault,
            LineFault::LineTooLong { line } => TraceFault::BadLine {
                line,
                kind: LineKind::TooLong,
            },
            LineFault::InputTooLong => TraceFault::InputTooLong,
        }
    }
}
