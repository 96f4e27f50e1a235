//! A policy, and what it has counted.
ghost use Rattle.std.specs.Prelude.{◌≡◌, ◌≢◌, ◌+◌, ◌≤◌, ◌^◌, ◌∷◌, [], ℕ, IfOk, OnOk};
ghost use Rattle.policy_model.specs.declared.names.PolicyName.{PolicyName};
ghost use Rattle.policy_model.specs.declared.names.PolicyName.TheVariants.{Belady};
ghost use Rattle.policy_sweep.specs.Running.{Advances, IsAnyRunning, IsRunning, IsToldRequest, Told};

use any_policy::AnyPolicy;
use bound_base::NoMemory;
use policy_model::PolicyName;
use replay_core::Replay;
use replay_steps::{Asked, begin, step};
use std::alloc::Global;

/// What a policy has counted at a capacity, in bytes.
#[derive(Clone, Copy, Debug, PartialEq, Eq)]
pub struct PolicyReplay {
    pub policy: PolicyName,
    pub capacity: u64,
    pub counts: Replay,
}

/// A policy in a replay, and what it has counted so far.
#[derive(Drop)]
pub(crate) struct Running {
    pub(crate) policy: AnyPolicy,
    pub(crate) so_far: PolicyReplay,
}

impl Running {
    /// A policy of this rule that was asked for nothing, with its capacity in bytes, for objects numbered below this.
    pub(crate) fn new(
        alloc: Global,
        name: PolicyName,
        capacity: u64,
        objects: u32,
    ) -> Result<Self, NoMemory>
        requires range { (1 ≤ capacity) × (capacity ≤ 2 ^ 56) }
        requires few { objects ≤ 2 ^ 31 }
        ensures { IfOk result (λ running. (told : Told) → IsRunning told name capacity objects 0 running) }
    {
        let policy = AnyPolicy::new(alloc, name, capacity, objects)?;
        let so_far = PolicyReplay {
            policy: name,
            capacity,
            counts: begin(&policy),
        };
        Ok(Running { policy, so_far })
    }

    // Asks the policy for one request more.
    fn request(&mut self, alloc: Global, asked: &Asked) -> Result<(), NoMemory>
        requires of_some { IsAnyRunning self.old (asked.now ∷ []) }
        ensures more { OnOk result ((told : Told) (name : PolicyName) (capacity objects t : ℕ) → name ≢ Belady → IsToldRequest told objects t asked.now
            → IsRunning told name capacity objects t self.old → IsRunning told name capacity objects (t + 1) self.new) }
    {
        self.so_far.counts = step(alloc, &mut self.policy, asked, self.so_far.counts)?;
        Ok(())
    }

    // Asks the policy for each of the requests, in their order.
    pub(crate) fn go_through(&mut self, alloc: Global, batch: &[Asked]) -> Result<(), NoMemory>
        requires of_some { IsAnyRunning self.old batch.now }
        ensures more { OnOk result (Advances batch.now self.old self.new) }
    {
        for asked in batch {
            self.request(alloc, asked)?;
        }
        Ok(())
    }
}
