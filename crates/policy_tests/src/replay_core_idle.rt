//! A policy of its own rule, which keeps nothing and has no known state.
ghost use Rattle.std.specs.Prelude.{◌≡◌, [], None, refl};
ghost use Rattle.std.specs.declared.option.Option.{Option};

use crate::rows::{CYCLE, trace_of};
use bound_base::NoMemory;
use compared::same;
use replay_core::{Outcome, Policy, replay};
use std::alloc::Global;

/// Keeps nothing.
#[derive(Drop)]
pub struct Idle {
    capacity: u64,
    objects: u32,
}

impl Policy for Idle {
    ghost contents = { λ _. [] };

    ghost objects = { λ p. p.objects };

    ghost room = { λ p. p.capacity };

    ghost known_state = { λ _. None };

    ghost tally = { λ _. None };

    fn capacity(&self) -> u64 {
        self.capacity
    }

    fn holds(&self, _object: u32) -> bool {
        false
    }

    fn request(
        &mut self,
        _alloc: Global,
        _object: u32,
        _size: u64,
        _next: Option<u32>,
    ) -> Result<Outcome, NoMemory> {
        Ok(Outcome::Miss)
    }

    ghost state_fits = { λ _. tt };
}

#[test]
fn nothing_kept_hits_and_writes_nothing(rt: HostRuntime) {
    let trace = trace_of(&rt, rt.alloc(), &CYCLE);
    let mut idle = Idle {
        capacity: 2,
        objects: trace.objects(),
    };
    let found = replay(rt.alloc(), &trace, 0, &mut idle).expect(&rt, "memory");
    same("hits", found.hits, 0).expect(&rt, "a row");
    same("bytes", found.bytes, 0).expect(&rt, "a row");
    same("written bytes", found.written, 0).expect(&rt, "a row");
}
