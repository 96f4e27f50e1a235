//! The replay that no contents passes.
ghost use Rattle.std.specs.Prelude.{◌≡◌, ◌≤◌, ◌^◌, [], IfErr, IfOk, OnOk};
ghost use Rattle.policy_laws.specs.Laws.{HaveOneSize};
ghost use Rattle.belady_laws.specs.Best.{AreOfBelady, IsBest, IsCause};

use crate::clash::{SizeClash, size_clash};
use bound_base::NoMemory;
use cache_rules::Trace;
use policy_model::PolicyName;
use replay_core::{Replay, replay};
use replay_rank::Belady;
use std::alloc::Global;

/// Why there is no best replay.
#[derive(Clone, Copy, Debug, PartialEq, Eq)]
pub enum BestFault {
    /// Two objects within the capacity have different sizes.
    Unequal(SizeClash),
    /// There was not enough memory.
    NoMemory,
}

impl From<NoMemory> for BestFault {
    ghost use Rattle.std.specs.Prelude.{◌≡◌};
    ghost use Rattle.belady_laws.specs.declared.best.BestFault.TheVariants.{NoMemory as OutOfMemory};

    ghost from_gives = { λ _ fault. fault ≡ OutOfMemory };

    fn from(_: NoMemory) -> Self {
        BestFault::NoMemory
    }
}

// Replays the rule of Belady.
fn replay_belady(alloc: Global, trace: &Trace, capacity: u64) -> Result<Replay, NoMemory>
    requires range { (1 ≤ capacity) × (capacity ≤ 2 ^ 56) }
    requires one_size { HaveOneSize capacity trace.now.objects }
    ensures best { trace.now.fills ≡ [] → IfOk result (λ r. IsBest capacity trace.now.objects r.hits r.bytes) }
    ensures run { IfOk result (λ r. AreOfBelady capacity trace.now.objects trace.now.fills r.hits r.bytes) }
{
    let mut policy = Belady::new(alloc, capacity, trace.objects())?;
    replay(alloc, trace, 0, &mut policy)
}

/// Replays the rule of Belady, 1966, if all objects that fit have one size. Then no allowed contents has more hits, or
/// more bytes of hits, if every request counts.
pub fn best_replay(alloc: Global, trace: &Trace, capacity: u64) -> Result<Replay, BestFault>
    requires range { (1 ≤ capacity) × (capacity ≤ 2 ^ 56) }
    ensures best { trace.now.fills ≡ [] → IfOk result (λ r. IsBest capacity trace.now.objects r.hits r.bytes) }
    ensures run { IfOk result (λ r. AreOfBelady capacity trace.now.objects trace.now.fills r.hits r.bytes) }
    ensures one_size { OnOk result (HaveOneSize capacity trace.now.objects) }
    ensures cause { IfErr result (IsCause capacity trace.now.objects) }
{
    if let Some(clash) = size_clash(trace, capacity) {
        return Err(BestFault::Unequal(clash));
    }
    match replay_belady(alloc, trace, capacity) {
        Ok(found) => Ok(found),
        Err(_) => Err(BestFault::NoMemory),
    }
}
