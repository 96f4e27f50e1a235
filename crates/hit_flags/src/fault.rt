//! Why no claims are read.

use bound_base::NoMemory;
use std::alloc::AllocError;
use thiserror::Error;
use trace_any::TraceFault;

/// Why no claims are read. Lines count from 1.
#[derive(Clone, Copy, Debug, Error, PartialEq, Eq)]
pub enum FlagFault {
    /// The trace is refused, or a read of it failed.
    #[error("the trace is refused: {0}")]
    Trace(TraceFault),
    /// This line of the flags is no flag.
    #[error("line {line} is no flag")]
    NotFlag { line: u64 },
    /// How many lines have a flag and how many requests there are, where the first of the two ends.
    #[error("{flags} flags of {requests} requests")]
    Count { flags: u64, requests: u64 },
    /// A read of the flags failed.
    #[error("a read of the flags failed")]
    ReadFault,
    /// There was not enough memory.
    #[error("there was not enough memory")]
    NoMemory,
}

impl From<NoMemory> for FlagFault {
    ghost use Rattle.std.specs.Prelude.{◌≡◌};
    ghost use Rattle.hit_flags.specs.declared.fault.FlagFault.TheVariants.{NoMemory as OutOfMemory};

    ghost from_gives = { λ _ f. f ≡ OutOfMemory };

    fn from(_: NoMemory) -> Self {
        FlagFault::NoMemory
    }
}

impl From<AllocError> for FlagFault {
    ghost use Rattle.std.specs.Prelude.{◌≡◌};
    ghost use Rattle.hit_flags.specs.declared.fault.FlagFault.TheVariants.{NoMemory as OutOfMemory};

    ghost from_gives = { λ _ f. f ≡ OutOfMemory };

    fn from(_: AllocError) -> Self {
        FlagFault::NoMemory
    }
}

impl From<TraceFault> for FlagFault {
    ghost use Rattle.std.specs.Prelude.{◌≡◌};
    ghost use Rattle.hit_flags.specs.declared.fault.FlagFault.TheVariants.{Trace as OfTrace};

    ghost from_gives = { λ fault f. f ≡ OfTrace fault };

    fn from(fault: TraceFault) -> Self {
        FlagFault::Trace(fault)
    }
}
