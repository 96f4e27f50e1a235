//! A policy of one's own.
ghost use Rattle.std.specs.Prelude.{◌≤◌, ◌^◌, None, IfOk};
ghost use Rattle.replay_core.specs.Keeping.{contents_of};
ghost use Rattle.policy_model.specs.Runs.{AreScores};

use bound_base::NoMemory;
use cache_rules::Trace;
use replay_core::{Outcome, Policy, Replay, replay};
use replay_recency::Lru;
use std::alloc::Global;

/// LRU that lets in objects of at most so many bytes. It keeps its rule for itself: no state of it is known.
#[derive(Drop)]
pub struct Small {
    lru: Lru,
    most: u64,
}

impl Policy for Small {
    ghost contents = { λ p. contents_of p.lru };

    ghost objects = { λ p. p.lru.objects };

    ghost room = { λ p. p.lru.capacity };

    ghost known_state = { λ _. None };

    ghost tally = { λ _. None };

    fn capacity(&self) -> u64 {
        self.lru.capacity()
    }

    fn holds(&self, object: u32) -> bool {
        self.lru.holds(object)
    }

    fn request(
        &mut self,
        alloc: Global,
        object: u32,
        size: u64,
        next: Option<u32>,
    ) -> Result<Outcome, NoMemory> {
        // Its clause says that what is held fits, whichever way this call ends.
        let _most = self.lru.capacity();
        if size > self.most && !self.lru.holds(object) {
            return Ok(Outcome::Miss);
        }
        self.lru.request(alloc, object, size, next)
    }

    ghost state_fits = { λ _. tt };
}

/// The hits of that policy, and their bytes.
pub fn hits_of_small(
    alloc: Global,
    trace: &Trace,
    capacity: u64,
    most: u64,
) -> Result<Replay, NoMemory>
    requires range { (1 ≤ capacity) × (capacity ≤ 2 ^ 56) }
    ensures { IfOk result (λ r. AreScores capacity 0 trace.now.fills trace.now.objects r.hits r.bytes) }
{
    let lru = Lru::new(alloc, capacity, trace.objects())?;
    let mut policy = Small { lru, most };
    replay(alloc, trace, 0, &mut policy)
}
