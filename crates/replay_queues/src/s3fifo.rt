//! The rule that tries objects in a small queue before they may stay in the main queue.
ghost use Rattle.std.specs.Prelude.{◌≡◌, ◌≤◌, ◌<◌, ◌^◌, ◌⊎◌, ℕ, All, Contains, Some, None, IfOk, OnOk, OnErr, refl};
ghost use Rattle.std.specs.declared.option.Option.{Option};
ghost use Rattle.policy_model.specs.declared.names.PolicyName.TheVariants.{S3Fifo as ByTrial};
ghost use Rattle.replay_core.specs.Keeping.{Answers, nothing_kept, state_of, contents_of};
ghost use Rattle.policy_model.specs.States.{Member, has_member, member};
ghost use Rattle.replay_core.specs.Laws.{CountsAnswer, IsSound, StepsBy};
ghost use Rattle.replay_core.specs.Outcomes.{is_hit};

use crate::three_queues::ThreeQueues;
use bound_base::NoMemory;
use replay_core::{LetGo, Outcome, Policy};
use std::alloc::Global;
use std::marker::Model;

/// S3-FIFO, of Yang and others, "FIFO Queues are All You Need for Cache Eviction", SOSP 2023: an object comes into a small
/// queue, and a hit counts, up to three. On a miss, until the object fits, the small queue gives up an object if it has a
/// tenth of the capacity or more, or the main queue is empty; else the main queue does. From the small queue an object
/// with two hits or more moves to the main queue, and the first other one is given up and is a ghost. From the main
/// queue an object with hits moves to its back with one hit less, and the first other one is given up. A ghost that is
/// asked for comes into the main queue. The oldest ghosts are forgotten if they have more bytes than the main queue is
/// meant to have.
///
/// A request takes constant time on average: each move of an object uses up a hit, or is the one of a miss. It takes 6
/// bytes for each object up to the greatest that came in, and 24 for each that it holds and each ghost, with room for more
/// of both.
#[derive(Drop)]
pub struct S3Fifo {
    capacity: u64,
    objects: u32,
    requests: u64,
    used: u64,
    queues: ThreeQueues,
}

impl Model for S3Fifo {
    ghost use Rattle.replay_core.specs.Keeping.{Kept};

    ghost Value = { Kept };

    ghost use Rattle.replay_queues.specs.SmallAndMain.{queues_at, queues_kept, IsS3Fifo};

    ghost view = { λ p. queues_kept p.objects p.capacity p.requests (queues_at p.queues) };

    ghost invariant = { λ p. IsS3Fifo p.objects p.capacity p.used p.queues };
}

impl S3Fifo {
    /// A policy that holds nothing, with its capacity in bytes, for objects numbered below `objects`.
    pub fn new(alloc: Global, capacity: u64, objects: u32) -> Result<Self, NoMemory>
        requires range { (1 ≤ capacity) × (capacity ≤ 2 ^ 56) }
        ensures nothing { IfOk result (λ policy. policy ≡ nothing_kept objects capacity) }
    {
        Ok(S3Fifo {
            capacity,
            objects,
            requests: 0,
            used: 0,
            queues: ThreeQueues::new(alloc)?,
        })
    }

    // One request, as the rule says, whatever the next request is.
    fn ask(&mut self, alloc: Global, object: u32, size: u64) -> Result<Outcome, NoMemory>
        requires known { object < self.old.objects }
        requires kept_size { All (λ m. m.object ≡ object → m.size ≡ size) (contents_of self.old) }
        ensures answers { IfOk result (λ outcome. (next : Option ℕ) → Answers ByTrial self.old self.new object size next outcome) }
        ensures fits { IsSound self.new.capacity (contents_of self.new) }
        ensures kept { OnErr result (self.new ≡ self.old) }
    {
        let requests = self.requests.saturating_add(1);
        if self.queues.holds(object) {
            self.queues.count_hit(object);
            self.requests = requests;
            return Ok(Outcome::Hit);
        }
        if size > self.capacity {
            self.requests = requests;
            return Ok(Outcome::Miss);
        }
        self.queues.reach(alloc, object, self.objects)?;
        self.used = self.queues.make_room(self.used, self.capacity, size);
        self.queues.enter(object, size);
        self.used += size;
        self.requests = requests;
        Ok(Outcome::Miss)
    }
}

impl Policy for S3Fifo {
    ghost contents = { λ p. contents_of p };

    ghost objects = { λ p. p.objects };

    ghost room = { λ p. p.capacity };

    ghost known_state = { λ p. Some (state_of ByTrial p) };

    ghost tally = { λ _. None };

    fn capacity(&self) -> u64 {
        self.capacity
    }

    fn holds(&self, object: u32) -> bool {
        self.queues.holds(object)
    }

    fn request(
        &mut self,
        alloc: Global,
        object: u32,
        size: u64,
        _next: Option<u32>,
    ) -> Result<Outcome, NoMemory>
        requires known { object < self.old.objects }
        requires size { 1 ≤ size }
        requires kept_size { All (λ m. m.object ≡ object → m.size ≡ size) (contents_of self.old) }
        ensures outcome { IfOk result (λ o. is_hit o ≡ has_member (contents_of self.old) object) }
        ensures only_the_request_enters { OnOk result ((m : Member) → Contains (contents_of self.new) m → Contains (contents_of self.old) m ⊎ (m ≡ member object size)) }
        ensures none_enters { OnErr result ((m : Member) → Contains (contents_of self.new) m → Contains (contents_of self.old) m) }
        ensures sound { IsSound self.new.capacity (contents_of self.new) }
        ensures same_capacity { self.new.capacity ≡ self.old.capacity }
        ensures same_objects { self.new.objects ≡ self.old.objects }
        ensures counted { IfOk result (λ o. CountsAnswer None None (is_hit o)) }
        ensures step { OnOk result (StepsBy (Some (state_of ByTrial self.old)) (Some (state_of ByTrial self.new)) object size _next) }
        ensures kept { OnErr result (self.new ≡ self.old) }
    {
        self.ask(alloc, object, size)
    }

    ghost state_fits = { λ p. (refl, refl) };
}

impl LetGo for S3Fifo {
    /// It takes constant time. The object becomes no ghost.
    fn let_go(&mut self, object: u32) {
        self.used -= self.queues.leave(object);
    }
}
