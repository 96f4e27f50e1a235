//! GDSF and LFUDA, whose ranks are a floor plus what requests are worth.
ghost use Rattle.std.specs.Prelude.{◌≡◌, ◌≤◌, ◌^◌, Some, None, IsOk, IfOk, refl};
ghost use Rattle.std.specs.declared.option.Option.{Option};
ghost use Rattle.policy_model.specs.declared.names.PolicyName.TheVariants.{Gdsf as BySize, Lfuda as ByAge};
ghost use Rattle.replay_core.specs.Keeping.{nothing_kept, state_of, contents_of};

use crate::aging::Aging;
use bound_base::NoMemory;
use cache_model::Objective;
use replay_core::{LetGo, Outcome, Policy};
use std::alloc::Global;
use std::marker::Model;

/// The object of the least rank is given up first: the floor at its last request, plus its requests times 2^48 over its
/// size. The floor rises to the rank of what is given up (GreedyDual-Size, Cao and Irani 1997, with a count of requests).
///
/// Requests take, one with another, time logarithmic in the number of entries, for themselves and for each entry that is
/// given up. It takes 4 bytes for each object up to the greatest that came in, and memory for each entry.
#[derive(Drop)]
pub struct Gdsf {
    aging: Aging,
}

impl Model for Gdsf {
    ghost use Rattle.replay_core.specs.Keeping.{Kept};

    ghost Value = { Kept };

    ghost view = { λ p. p.aging };
}

impl Gdsf {
    /// A policy that holds nothing, with its capacity in bytes. It takes memory with the first entry.
    pub fn new(alloc: Global, capacity: u64, objects: u32) -> Result<Self, NoMemory>
        requires range { (1 ≤ capacity) × (capacity ≤ 2 ^ 56) }
        ensures succeeds { IsOk result }
        ensures nothing { IfOk result (λ policy. policy ≡ nothing_kept objects capacity) }
    {
        Ok(Gdsf {
            aging: Aging::new(alloc, capacity, objects),
        })
    }
}

impl Policy for Gdsf {
    ghost contents = { λ p. contents_of p };

    ghost objects = { λ p. p.objects };

    ghost room = { λ p. p.capacity };

    ghost known_state = { λ p. Some (state_of BySize p) };

    ghost tally = { λ _. None };

    fn capacity(&self) -> u64 {
        self.aging.capacity()
    }

    fn holds(&self, object: u32) -> bool {
        self.aging.holds(object)
    }

    fn request(
        &mut self,
        _alloc: Global,
        object: u32,
        size: u64,
        _next: Option<u32>,
    ) -> Result<Outcome, NoMemory> {
        self.aging.ask(Objective::Object, object, size)
    }

    ghost state_fits = { λ p. (refl, refl) };
}

impl LetGo for Gdsf {
    /// Calls take, one with another, time logarithmic in the number of entries. The floor stays.
    fn let_go(&mut self, object: u32) {
        self.aging.leave(object);
    }
}

/// The object of the least rank is given up first: the floor at its last request, plus its requests. The floor rises to
/// the rank of what is given up (LFU with Dynamic Aging, Arlitt and others 2000).
///
/// Requests take, one with another, time logarithmic in the number of entries, for themselves and for each entry that is
/// given up. It takes 4 bytes for each object up to the greatest that came in, and memory for each entry.
#[derive(Drop)]
pub struct Lfuda {
    aging: Aging,
}

impl Model for Lfuda {
    ghost use Rattle.replay_core.specs.Keeping.{Kept};

    ghost Value = { Kept };

    ghost view = { λ p. p.aging };
}

impl Lfuda {
    /// A policy that holds nothing, with its capacity in bytes. It takes memory with the first entry.
    pub fn new(alloc: Global, capacity: u64, objects: u32) -> Result<Self, NoMemory>
        requires range { (1 ≤ capacity) × (capacity ≤ 2 ^ 56) }
        ensures succeeds { IsOk result }
        ensures nothing { IfOk result (λ policy. policy ≡ nothing_kept objects capacity) }
    {
        Ok(Lfuda {
            aging: Aging::new(alloc, capacity, objects),
        })
    }
}

impl Policy for Lfuda {
    ghost contents = { λ p. contents_of p };

    ghost objects = { λ p. p.objects };

    ghost room = { λ p. p.capacity };

    ghost known_state = { λ p. Some (state_of ByAge p) };

    ghost tally = { λ _. None };

    fn capacity(&self) -> u64 {
        self.aging.capacity()
    }

    fn holds(&self, object: u32) -> bool {
        self.aging.holds(object)
    }

    fn request(
        &mut self,
        _alloc: Global,
        object: u32,
        size: u64,
        _next: Option<u32>,
    ) -> Result<Outcome, NoMemory> {
        self.aging.ask(Objective::Bytes, object, size)
    }

    ghost state_fits = { λ p. (refl, refl) };
}

impl LetGo for Lfuda {
    /// Calls take, one with another, time logarithmic in the number of entries. The floor stays.
    fn let_go(&mut self, object: u32) {
        self.aging.leave(object);
    }
}
