//! Why a sweep stops.

use bound_base::NoMemory;
use policy_model::PolicyName;
use policy_sweep::ReplayFault;
use thiserror::Error;
use trace_any::TraceFault;

/// Why a trace is not swept.
#[derive(Clone, Copy, Debug, Error, PartialEq, Eq)]
pub enum SweepFault {
    /// The trace is refused, or could not be read; or there was not enough memory for what is kept beside the policies.
    #[error("the trace is not read: {0}")]
    Trace(TraceFault),
    /// The trace has more different objects than policies know.
    #[error("the trace has too many objects")]
    TooManyObjects,
    /// There was not enough memory for what the policy of this rule holds, at its capacity in bytes.
    #[error("there was not enough memory for {policy:?} at {capacity} bytes")]
    PolicyMemory { policy: PolicyName, capacity: u64 },
}

impl From<NoMemory> for SweepFault {
    ghost use Rattle.std.specs.Prelude.{◌≡◌};
    ghost use Rattle.trace_any.specs.declared.fault.TraceFault.TheVariants.{NoMemory as OutOfMemory};
    ghost use Rattle.trace_sweep.specs.declared.fault.SweepFault.TheVariants.{Trace};

    ghost from_gives = { λ _ f. f ≡ Trace OutOfMemory };

    fn from(_: NoMemory) -> Self {
        SweepFault::Trace(TraceFault::NoMemory)
    }
}

impl From<TraceFault> for SweepFault {
    ghost use Rattle.std.specs.Prelude.{◌≡◌};
    ghost use Rattle.trace_sweep.specs.declared.fault.SweepFault.TheVariants.{Trace};

    ghost from_gives = { λ e f. f ≡ Trace e };

    fn from(fault: TraceFault) -> Self {
        SweepFault::Trace(fault)
    }
}

impl From<ReplayFault> for SweepFault {
    ghost use Rattle.std.specs.Prelude.{◌≡◌};
    ghost use Rattle.trace_sweep.specs.Faults.{fault_of};

    ghost from_gives = { λ e f. f ≡ fault_of e };

    fn from(fault: ReplayFault) -> Self {
        match fault {
            ReplayFault::PolicyMemory { policy, capacity } => {
                SweepFault::PolicyMemory { policy, capacity }
            }
            ReplayFault::NoMemory => SweepFault::Trace(TraceFault::NoMemory),
        }
    }
}
