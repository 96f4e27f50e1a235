//! The rule whose hand goes from older objects to newer ones, and gives up the next without a mark.
ghost use Rattle.std.specs.Prelude.{◌≡◌, ◌≤◌, ◌<◌, ◌^◌, ◌⊎◌, ℕ, All, Contains, Some, None, IfOk, OnOk, OnErr, refl};
ghost use Rattle.std.specs.declared.option.Option.{Option};
ghost use Rattle.policy_model.specs.declared.names.PolicyName.TheVariants.{Sieve as ByHand};
ghost use Rattle.replay_core.specs.Keeping.{Answers, nothing_kept, state_of, contents_of};
ghost use Rattle.policy_model.specs.States.{Member, has_member, member};
ghost use Rattle.replay_core.specs.Laws.{CountsAnswer, IsSound, StepsBy};
ghost use Rattle.replay_core.specs.Outcomes.{is_hit};

use crate::hand::Hand;
use bound_base::NoMemory;
use replay_core::{LetGo, Outcome, Policy};
use std::alloc::Global;
use std::marker::Model;

/// SIEVE, of Zhang and others, "SIEVE is Simpler than LRU", NSDI 2024: the objects stand in the order in which they came
/// in, and a hit marks its object. On a miss a hand goes from older objects to newer ones until there is room. It clears
/// the mark of a marked object, which stays where it is, and gives up the others. After the newest it begins again at
/// the oldest.
///
/// A request takes constant time on average, for itself and for each look of the hand. A look gives up an object or
/// clears the mark of a hit. It takes 5 bytes for each object up to the greatest that came in, and 24 for each that it
/// holds, with room for more of both.
#[derive(Drop)]
pub struct Sieve {
    capacity: u64,
    objects: u32,
    requests: u64,
    used: u64,
    hand: Hand,
}

impl Model for Sieve {
    ghost use Rattle.replay_core.specs.Keeping.{Kept};

    ghost Value = { Kept };

    ghost use Rattle.replay_queues.specs.SieveQueues.{cut_at, cut_kept, IsCounted};

    ghost view = { λ p. cut_kept p.objects p.capacity p.requests (cut_at p.hand) };

    ghost invariant = { λ p. IsCounted p.objects p.capacity p.used p.hand };
}

impl Sieve {
    /// A policy that holds nothing, with its capacity in bytes, for objects numbered below `objects`.
    pub fn new(alloc: Global, capacity: u64, objects: u32) -> Result<Self, NoMemory>
        requires range { (1 ≤ capacity) × (capacity ≤ 2 ^ 56) }
        ensures nothing { IfOk result (λ policy. policy ≡ nothing_kept objects capacity) }
    {
        Ok(Sieve {
            capacity,
            objects,
            requests: 0,
            used: 0,
            hand: Hand::new(alloc)?,
        })
    }

    // One request, as the rule says, whatever the next request is.
    fn ask(&mut self, alloc: Global, object: u32, size: u64) -> Result<Outcome, NoMemory>
        requires known { object < self.old.objects }
        requires kept_size { All (λ m. m.object ≡ object → m.size ≡ size) (contents_of self.old) }
        ensures answers { IfOk result (λ outcome. (next : Option ℕ) → Answers ByHand self.old self.new object size next outcome) }
        ensures fits { IsSound self.new.capacity (contents_of self.new) }
        ensures kept { OnErr result (self.new ≡ self.old) }
    {
        let requests = self.requests.saturating_add(1);
        if self.hand.holds(object) {
            self.hand.mark(object);
            self.requests = requests;
            return Ok(Outcome::Hit);
        }
        if size > self.capacity {
            self.requests = requests;
            return Ok(Outcome::Miss);
        }
        self.hand.reach(alloc, object, self.objects)?;
        self.used = self.hand.make_room(self.used, self.capacity, size);
        self.hand.come_in(object, size);
        self.used += size;
        self.requests = requests;
        Ok(Outcome::Miss)
    }
}

impl Policy for Sieve {
    ghost contents = { λ p. contents_of p };

    ghost objects = { λ p. p.objects };

    ghost room = { λ p. p.capacity };

    ghost known_state = { λ p. Some (state_of ByHand p) };

    ghost tally = { λ _. None };

    fn capacity(&self) -> u64 {
        self.capacity
    }

    fn holds(&self, object: u32) -> bool {
        self.hand.holds(object)
    }

    fn request(
        &mut self,
        alloc: Global,
        object: u32,
        size: u64,
        _next: Option<u32>,
    ) -> Result<Outcome, NoMemory>
        requires known { object < self.old.objects }
        requires size { 1 ≤ size }
        requires kept_size { All (λ m. m.object ≡ object → m.size ≡ size) (contents_of self.old) }
        ensures outcome { IfOk result (λ o. is_hit o ≡ has_member (contents_of self.old) object) }
        ensures only_the_request_enters { OnOk result ((m : Member) → Contains (contents_of self.new) m → Contains (contents_of self.old) m ⊎ (m ≡ member object size)) }
        ensures none_enters { OnErr result ((m : Member) → Contains (contents_of self.new) m → Contains (contents_of self.old) m) }
        ensures sound { IsSound self.new.capacity (contents_of self.new) }
        ensures same_capacity { self.new.capacity ≡ self.old.capacity }
        ensures same_objects { self.new.objects ≡ self.old.objects }
        ensures counted { IfOk result (λ o. CountsAnswer None None (is_hit o)) }
        ensures step { OnOk result (StepsBy (Some (state_of ByHand self.old)) (Some (state_of ByHand self.new)) object size _next) }
        ensures kept { OnErr result (self.new ≡ self.old) }
    {
        self.ask(alloc, object, size)
    }

    ghost state_fits = { λ p. (refl, refl) };
}

impl LetGo for Sieve {
    /// It takes constant time.
    fn let_go(&mut self, object: u32) {
        self.used -= self.hand.leave(object);
    }
}
