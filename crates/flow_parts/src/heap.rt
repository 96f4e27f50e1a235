//! A finite map from keys to ranks, from which the least rank is taken.
ghost use Rattle.std.specs.Prelude.{◌≡◌, ◌<◌, ◌↔◌, IfNone, IfOk, IfSome, IsNone, None, Some, length, replicate};
ghost use Rattle.flow_parts.specs.Ranks.{ChangesRank, IsEmpty, IsFirst, lesser, rank_at};

use crate::queue::Queue;
use bound_base::NoMemory;
use std::alloc::Global;
use std::marker::Model;

/// A finite map from keys to ranks, as a binary heap. Of the keys of one rank the least comes first.
#[derive(Drop)]
pub struct Heap {
    queue: Queue,
    ranks: Vec<u128>,
}

impl Model for Heap {
    ghost use Rattle.flow_parts.specs.Queues.{IsQueue};
    ghost use Rattle.flow_parts.specs.Ranks.{Ranks, ranks_of};

    ghost Value = { Ranks };

    ghost view = { λ h. ranks_of h.queue h.ranks.items };

    ghost invariant = { λ h. IsQueue h.queue h.ranks.items };
}

impl Heap {
    /// No key has a rank. It takes 24 bytes for each key.
    pub fn new(alloc: Global, keys: u32) -> Result<Heap, NoMemory>
        ensures { IfOk result (λ heap. heap ≡ replicate keys None) }
    {
        let ranks = vec![in alloc; 0; keys as usize]?;
        let queue = Queue::new(alloc, keys)?;
        Ok(Heap { queue, ranks })
    }

    /// Gives the key that rank or, if it has one, the lesser of both. It takes time in the logarithm of the keys.
    pub fn offer(&mut self, key: u32, rank: u128)
        requires { key < length self.old }
        ensures { ChangesRank self.old self.new key (Some (lesser (rank_at self.old key) rank)) }
    {
        if self.queue.place_of(key) > 0 && self.ranks[key as usize] <= rank {
            return;
        }
        self.ranks[key as usize] = rank;
        self.queue.offer(&self.ranks, key);
    }

    /// Takes the key of least rank out, with that rank. It takes time in the logarithm of the keys.
    pub fn take_least(&mut self) -> Option<(u32, u128)>
        ensures first { IfSome result (λ (key, rank). IsFirst self.old key rank) }
        ensures taken { IfSome result (λ (key, rank). ChangesRank self.old self.new key None) }
        ensures none { IsNone result ↔ IsEmpty self.old }
        ensures same { IfNone result (self.new ≡ self.old) }
    {
        let Some(key) = self.queue.take(&self.ranks) else {
            return None;
        };
        Some((key, self.ranks[key as usize]))
    }
}
