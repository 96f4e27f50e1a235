//! The policies as one type, which is asked as each of them is.
ghost use Rattle.std.specs.Prelude.{◌≡◌, ◌≤◌, ◌<◌, ◌^◌, Some, None, IfOk, refl};
ghost use Rattle.replay_core.specs.Keeping.{contents_of, nothing_kept, state_of};
ghost use Rattle.any_policy.specs.Any.{kept_of, name_of};

use bound_base::NoMemory;
use policy_model::PolicyName;
use replay_core::{Outcome, Policy};
use replay_queues::{Clock, S3Fifo, Sieve};
use replay_rank::{Belady, Gdsf, Gdsf98, Lfu, Lfuda};
use replay_recency::{Fifo, Lru};
use replay_tinylfu::WTinyLfu;
use std::alloc::Global;

/// A policy of one of the rules.
#[derive(Drop)]
pub enum AnyPolicy {
    Lru(Lru),
    Fifo(Fifo),
    Clock(Clock),
    Lfu(Lfu),
    Belady(Belady),
    Sieve(Sieve),
    S3Fifo(S3Fifo),
    Gdsf(Gdsf),
    Lfuda(Lfuda),
    Gdsf98(Gdsf98),
    WTinyLfu(WTinyLfu),
}

impl AnyPolicy {
    /// A policy of this rule that holds nothing, with its capacity in bytes, for objects numbered below this.
    pub fn new(
        alloc: Global,
        name: PolicyName,
        capacity: u64,
        objects: u32,
    ) -> Result<Self, NoMemory>
        requires range { (1 ≤ capacity) × (capacity ≤ 2 ^ 56) }
        requires few { objects ≤ 2 ^ 31 }
        ensures name { IfOk result (λ policy. name_of policy ≡ name) }
        ensures nothing { IfOk result (λ policy. kept_of policy ≡ nothing_kept objects capacity) }
    {
        Ok(match name {
            PolicyName::Lru => AnyPolicy::Lru(Lru::new(alloc, capacity, objects)?),
            PolicyName::Fifo => AnyPolicy::Fifo(Fifo::new(alloc, capacity, objects)?),
            PolicyName::Clock => AnyPolicy::Clock(Clock::new(alloc, capacity, objects)?),
            PolicyName::Lfu => AnyPolicy::Lfu(Lfu::new(alloc, capacity, objects)?),
            PolicyName::Belady => AnyPolicy::Belady(Belady::new(alloc, capacity, objects)?),
            PolicyName::Sieve => AnyPolicy::Sieve(Sieve::new(alloc, capacity, objects)?),
            PolicyName::S3Fifo => AnyPolicy::S3Fifo(S3Fifo::new(alloc, capacity, objects)?),
            PolicyName::Gdsf => AnyPolicy::Gdsf(Gdsf::new(alloc, capacity, objects)?),
            PolicyName::Lfuda => AnyPolicy::Lfuda(Lfuda::new(alloc, capacity, objects)?),
            PolicyName::Gdsf98 => AnyPolicy::Gdsf98(Gdsf98::new(alloc, capacity, objects)?),
            PolicyName::WTinyLfu => AnyPolicy::WTinyLfu(WTinyLfu::new(alloc, capacity, objects)?),
        })
    }
}

impl Policy for AnyPolicy {
    ghost contents = { λ p. contents_of (kept_of p) };

    ghost objects = { λ p. (kept_of p).objects };

    ghost room = { λ p. (kept_of p).capacity };

    ghost known_state = { λ p. Some (state_of (name_of p) (kept_of p)) };

    ghost tally = { λ _. None };

    fn capacity(&self) -> u64 {
        match self {
            AnyPolicy::Lru(policy) => policy.capacity(),
            AnyPolicy::Fifo(policy) => policy.capacity(),
            AnyPolicy::Clock(policy) => policy.capacity(),
            AnyPolicy::Lfu(policy) => policy.capacity(),
            AnyPolicy::Belady(policy) => policy.capacity(),
            AnyPolicy::Sieve(policy) => policy.capacity(),
            AnyPolicy::S3Fifo(policy) => policy.capacity(),
            AnyPolicy::Gdsf(policy) => policy.capacity(),
            AnyPolicy::Lfuda(policy) => policy.capacity(),
            AnyPolicy::Gdsf98(policy) => policy.capacity(),
            AnyPolicy::WTinyLfu(policy) => policy.capacity(),
        }
    }

    fn holds(&self, object: u32) -> bool {
        match self {
            AnyPolicy::Lru(policy) => policy.holds(object),
            AnyPolicy::Fifo(policy) => policy.holds(object),
            AnyPolicy::Clock(policy) => policy.holds(object),
            AnyPolicy::Lfu(policy) => policy.holds(object),
            AnyPolicy::Belady(policy) => policy.holds(object),
            AnyPolicy::Sieve(policy) => policy.holds(object),
            AnyPolicy::S3Fifo(policy) => policy.holds(object),
            AnyPolicy::Gdsf(policy) => policy.holds(object),
            AnyPolicy::Lfuda(policy) => policy.holds(object),
            AnyPolicy::Gdsf98(policy) => policy.holds(object),
            AnyPolicy::WTinyLfu(policy) => policy.holds(object),
        }
    }

    fn request(
        &mut self,
        alloc: Global,
        object: u32,
        size: u64,
        next: Option<u32>,
    ) -> Result<Outcome, NoMemory> {
        match self {
            AnyPolicy::Lru(policy) => policy.request(alloc, object, size, next),
            AnyPolicy::Fifo(policy) => policy.request(alloc, object, size, next),
            AnyPolicy::Clock(policy) => policy.request(alloc, object, size, next),
            AnyPolicy::Lfu(policy) => policy.request(alloc, object, size, next),
            AnyPolicy::Belady(policy) => policy.request(alloc, object, size, next),
            AnyPolicy::Sieve(policy) => policy.request(alloc, object, size, next),
            AnyPolicy::S3Fifo(policy) => policy.request(alloc, object, size, next),
            AnyPolicy::Gdsf(policy) => policy.request(alloc, object, size, next),
            AnyPolicy::Lfuda(policy) => policy.request(alloc, object, size, next),
            AnyPolicy::Gdsf98(policy) => policy.request(alloc, object, size, next),
            AnyPolicy::WTinyLfu(policy) => policy.request(alloc, object, size, next),
        }
    }

    ghost state_fits = { λ p. (refl, refl) };
}
