//! The rule that gives up the object that entered longest ago.
ghost use Rattle.std.specs.Prelude.{◌≡◌, ◌≤◌, ◌^◌, ℕ, All, Some, None, IfOk, OnOk, OnErr, refl};
ghost use Rattle.std.specs.declared.option.Option.{Option};
ghost use Rattle.policy_model.specs.declared.names.PolicyName.TheVariants.{Fifo as ByEntry};
ghost use Rattle.replay_core.specs.Keeping.{Answers, GivesUp, nothing_kept, state_of, contents_of};
ghost use Rattle.replay_core.specs.Laws.{IsSound};

use crate::lru_policy::free_oldest;
use bound_base::NoMemory;
use lru::LruCache;
use replay_core::{LetGo, Outcome, Policy};
use std::alloc::Global;
use std::marker::Model;

/// The object that entered first is given up first, whatever was asked for since. It is kept as a least recently used
/// one that no hit moves.
///
/// A request takes constant time on average, and each entry that is given up was put in by one request. It takes memory
/// for each entry.
#[derive(Drop)]
pub struct Fifo {
    capacity: u64,
    objects: u32,
    requests: u64,
    used: u64,
    entries: LruCache<u32, u64>,
}

impl Model for Fifo {
    ghost use Rattle.replay_core.specs.Keeping.{Kept};

    ghost Value = { Kept };

    ghost use Rattle.policy_model.specs.States.{nothing_beside};
    ghost use Rattle.replay_recency.specs.LruEntries.{entries_of, IsLru};

    ghost view = { λ p. record {
      objects = p.objects;
      capacity = p.capacity;
      now = p.requests;
      entries = entries_of p.entries.entries;
      beside = nothing_beside;
    } };

    ghost invariant = { λ p. IsLru p.capacity p.used p.entries.cap p.entries.entries };
}

impl Fifo {
    /// A policy that holds nothing, with its capacity in bytes. It takes memory for a fixed number of entries.
    pub fn new(alloc: Global, capacity: u64, objects: u32) -> Result<Self, NoMemory>
        requires range { (1 ≤ capacity) × (capacity ≤ 2 ^ 56) }
        ensures nothing { IfOk result (λ policy. policy ≡ nothing_kept objects capacity) }
    {
        Ok(Fifo {
            capacity,
            objects,
            requests: 0,
            used: 0,
            entries: LruCache::unbounded(alloc)?,
        })
    }

    // One request, as the rule says, whatever the next request is.
    fn ask(&mut self, object: u32, size: u64) -> Result<Outcome, NoMemory>
        requires kept_size { All (λ m. m.object ≡ object → m.size ≡ size) (contents_of self.old) }
        ensures answers { IfOk result (λ outcome. (next : Option ℕ) → Answers ByEntry self.old self.new object size next outcome) }
        ensures fits { OnOk result (IsSound self.new.capacity (contents_of self.new)) }
        ensures gives_up { OnErr result (GivesUp self.old self.new) }
    {
        let requests = self.requests.saturating_add(1);
        if self.entries.contains(&object) {
            self.requests = requests;
            return Ok(Outcome::Hit);
        }
        if size > self.capacity {
            self.requests = requests;
            return Ok(Outcome::Miss);
        }
        self.used = free_oldest(&mut self.entries, self.used, self.capacity, size);
        // No collection has 2^63 entries, so the cache is never full.
        let _few = self.entries.len();
        self.entries.put(object, size)?;
        self.used += size;
        self.requests = requests;
        Ok(Outcome::Miss)
    }
}

impl Policy for Fifo {
    ghost contents = { λ p. contents_of p };

    ghost objects = { λ p. p.objects };

    ghost room = { λ p. p.capacity };

    ghost known_state = { λ p. Some (state_of ByEntry p) };

    ghost tally = { λ _. None };

    fn capacity(&self) -> u64 {
        self.capacity
    }

    fn holds(&self, object: u32) -> bool {
        self.entries.contains(&object)
    }

    fn request(
        &mut self,
        _alloc: Global,
        object: u32,
        size: u64,
        _next: Option<u32>,
    ) -> Result<Outcome, NoMemory> {
        self.ask(object, size)
    }

    ghost state_fits = { λ p. (refl, refl) };
}

impl LetGo for Fifo {
    /// It takes constant time on average.
    fn let_go(&mut self, object: u32) {
        self.used -= self.entries.pop(&object).unwrap_or(0);
    }
}
