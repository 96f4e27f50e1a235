//! Why policies stop.

use bound_base::NoMemory;
use policy_model::PolicyName;

/// Why policies don't go on.
#[derive(Clone, Copy, Debug, PartialEq, Eq)]
pub enum ReplayFault {
    /// There was not enough memory for what the policy of this rule holds, at its capacity in bytes.
    PolicyMemory { policy: PolicyName, capacity: u64 },
    /// There was not enough memory for what is kept beside the policies.
    NoMemory,
}

impl From<NoMemory> for ReplayFault {
    ghost use Rattle.std.specs.Prelude.{◌≡◌};
    ghost use Rattle.policy_sweep.specs.declared.fault.ReplayFault.TheVariants.{NoMemory as OutOfMemory};

    ghost from_gives = { λ _ f. f ≡ OutOfMemory };

    fn from(_: NoMemory) -> Self {
        ReplayFault::NoMemory
    }
}
