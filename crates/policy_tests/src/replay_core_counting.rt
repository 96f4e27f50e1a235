//! A policy of its own that counts its answers: a replay has as many of them as the trace has requests, and its hits.
ghost use Rattle.std.specs.Prelude.{◌≡◌, None, Some, refl};
ghost use Rattle.std.specs.declared.option.Option.{Option};
ghost use Rattle.replay_core.specs.Keeping.{contents_of};

use crate::rows::{CYCLE, trace_of};
use bound_base::NoMemory;
use compared::same;
use replay_core::{Outcome, Policy, replay};
use replay_recency::Lru;
use std::alloc::Global;

/// LRU, with the number of requests that it answered, and of those that were hits.
#[derive(Drop)]
pub struct Counting {
    lru: Lru,
    asked: u64,
    hits: u64,
}

impl Policy for Counting {
    ghost contents = { λ p. contents_of p.lru };

    ghost objects = { λ p. p.lru.objects };

    ghost room = { λ p. p.lru.capacity };

    ghost known_state = { λ _. None };

    ghost tally = { λ p. Some (record { requests = p.asked; hits = p.hits }) };

    fn capacity(&self) -> u64 {
        self.lru.capacity()
    }

    fn holds(&self, object: u32) -> bool {
        self.lru.holds(object)
    }

    fn request(
        &mut self,
        alloc: Global,
        object: u32,
        size: u64,
        next: Option<u32>,
    ) -> Result<Outcome, NoMemory> {
        // Its clause says that what is held fits, whichever way this call ends.
        let _most = self.lru.capacity();
        let (Some(asked), Some(hits)) = (self.asked.checked_add(1), self.hits.checked_add(1)) else {
            return Err(NoMemory);
        };
        let outcome = self.lru.request(alloc, object, size, next)?;
        self.asked = asked;
        if outcome == Outcome::Hit {
            self.hits = hits;
        }
        Ok(outcome)
    }

    ghost state_fits = { λ _. tt };
}

#[test]
fn a_policy_that_counts_is_counted(rt: HostRuntime) {
    let trace = trace_of(&rt, rt.alloc(), &CYCLE);
    let lru = Lru::new(rt.alloc(), 3, trace.objects()).expect(&rt, "memory");
    let mut policy = Counting {
        lru,
        asked: 0,
        hits: 0,
    };
    let found = replay(rt.alloc(), &trace, 0, &mut policy).expect(&rt, "memory");
    same("hits", found.hits, 3).expect(&rt, "a row");
    same("hits of the policy", policy.hits, 3).expect(&rt, "a row");
    same("requests", policy.asked, trace.len() as u64).expect(&rt, "a row");
}
