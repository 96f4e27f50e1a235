//! The rule that lets an object in if it was asked for more often than those that it displaces.
ghost use Rattle.std.specs.Prelude.{◌≡◌, ◌≤◌, ◌<◌, ◌^◌, ◌⊎◌, ℕ, All, Contains, Some, None, IfOk, OnOk, OnErr, refl};
ghost use Rattle.std.specs.declared.option.Option.{Option};
ghost use Rattle.policy_model.specs.declared.names.PolicyName.TheVariants.{WTinyLfu as ByCount};
ghost use Rattle.policy_model.specs.States.{Member, has_member, member};
ghost use Rattle.policy_model.specs.WTinyLfu.{window_part, main_part, protected_part};
ghost use Rattle.replay_core.specs.Keeping.{Answers, nothing_kept, state_of, contents_of};
ghost use Rattle.replay_core.specs.Laws.{CountsAnswer, IsSound, StepsBy};
ghost use Rattle.replay_core.specs.Outcomes.{is_hit};

use crate::counts::Counts;
use crate::moves::{hit, leave, miss};
use crate::ring::Ring;
use crate::room::reach;
use bound_base::NoMemory;
use replay_core::{LetGo, Outcome, Policy};
use std::alloc::Global;
use std::marker::Model;

/// W-TinyLFU, of Einziger, Friedman and Manes, "TinyLFU: A Highly Efficient Cache Admission Policy", 2017, with sizes as in
/// Einziger, Eytan, Friedman and Manes, "Lightweight Robust Size Aware Cache Management", 2022, and with exact counts. An
/// object comes into a window of a hundredth of the capacity, and what leaves it comes into the main part if it fits there,
/// or if it was asked for more often than all those together that must leave for it, which are the least recently used.
/// There an object is on probation until it is asked for, and is then protected, as long as all that are protected have no
/// more than eight tenths of the main part. Counts are at most 15, and are halved at times.
///
/// A request takes constant time on average, but for the objects whose counts a candidate is compared with. It takes 8
/// bytes for each object up to the greatest that came in, and 24 for each that it holds, with room for more of both.
#[derive(Drop)]
pub struct WTinyLfu {
    capacity: u64,
    objects: u32,
    requests: u64,
    counts: Counts,
    ring: Ring,
}

impl Model for WTinyLfu {
    ghost use Rattle.replay_core.specs.Keeping.{Kept};

    ghost Value = { Kept };

    ghost use Rattle.replay_tinylfu.specs.TinyKept.{kept_of, IsTinyLfu};

    ghost view = { λ p. kept_of p.objects p.capacity p.requests p.counts.frequencies p.ring.segments };

    ghost invariant = { λ p. IsTinyLfu p.objects p.capacity p.counts p.ring };
}

// The bytes of the window.
fn window_room(capacity: u64) -> u64
    ensures { result ≡ window_part capacity }
{
    (capacity / 100).max(1)
}

// The bytes of the main part.
fn main_room(capacity: u64) -> u64
    ensures { result ≡ main_part capacity }
{
    capacity.saturating_sub(window_room(capacity))
}

// The bytes of the main part that protected objects may have.
fn protected_room(capacity: u64) -> u64
    requires { capacity ≤ 2 ^ 56 }
    ensures { result ≡ protected_part capacity }
{
    8 * main_room(capacity) / 10
}

impl WTinyLfu {
    /// A policy that holds nothing, with its capacity in bytes, for objects numbered below `objects`.
    pub fn new(alloc: Global, capacity: u64, objects: u32) -> Result<Self, NoMemory>
        requires range { (1 ≤ capacity) × (capacity ≤ 2 ^ 56) }
        requires few { objects ≤ 2 ^ 31 }
        ensures nothing { IfOk result (λ policy. policy ≡ nothing_kept objects capacity) }
    {
        let counts = Counts::new(alloc, 0)?;
        Ok(WTinyLfu {
            capacity,
            objects,
            requests: 0,
            counts,
            ring: Ring::new(alloc)?,
        })
    }

    // One request, as the rule says, whatever the next request is.
    fn ask(&mut self, alloc: Global, object: u32, size: u64) -> Result<Outcome, NoMemory>
        requires known { object < self.old.objects }
        requires kept_size { All (λ m. m.object ≡ object → m.size ≡ size) (contents_of self.old) }
        ensures answers { IfOk result (λ outcome. (next : Option ℕ) → Answers ByCount self.old self.new object size next outcome) }
        ensures fits { IsSound self.new.capacity (contents_of self.new) }
        ensures kept { OnErr result (self.new ≡ self.old) }
    {
        let requests = self.requests.saturating_add(1);
        if self.ring.holds(object) {
            self.counts.note(object, self.ring.len());
            hit(&mut self.ring, protected_room(self.capacity), object);
            self.requests = requests;
            return Ok(Outcome::Hit);
        }
        if size > self.capacity {
            self.requests = requests;
            return Ok(Outcome::Miss);
        }
        reach(
            &mut self.counts,
            &mut self.ring,
            alloc,
            object,
            self.objects,
        )?;
        self.counts.note(object, self.ring.len());
        let window = window_room(self.capacity);
        let main = main_room(self.capacity);
        miss(&mut self.ring, &self.counts, window, main, object, size);
        self.requests = requests;
        Ok(Outcome::Miss)
    }
}

impl Policy for WTinyLfu {
    ghost contents = { λ p. contents_of p };

    ghost objects = { λ p. p.objects };

    ghost room = { λ p. p.capacity };

    ghost known_state = { λ p. Some (state_of ByCount p) };

    ghost tally = { λ _. None };

    fn capacity(&self) -> u64 {
        self.capacity
    }

    fn holds(&self, object: u32) -> bool {
        self.ring.holds(object)
    }

    fn request(
        &mut self,
        alloc: Global,
        object: u32,
        size: u64,
        _next: Option<u32>,
    ) -> Result<Outcome, NoMemory>
        requires known { object < self.old.objects }
        requires size { 1 ≤ size }
        requires kept_size { All (λ m. m.object ≡ object → m.size ≡ size) (contents_of self.old) }
        ensures outcome { IfOk result (λ o. is_hit o ≡ has_member (contents_of self.old) object) }
        ensures only_the_request_enters { OnOk result ((m : Member) → Contains (contents_of self.new) m → Contains (contents_of self.old) m ⊎ (m ≡ member object size)) }
        ensures none_enters { OnErr result ((m : Member) → Contains (contents_of self.new) m → Contains (contents_of self.old) m) }
        ensures sound { IsSound self.new.capacity (contents_of self.new) }
        ensures same_capacity { self.new.capacity ≡ self.old.capacity }
        ensures same_objects { self.new.objects ≡ self.old.objects }
        ensures counted { IfOk result (λ o. CountsAnswer None None (is_hit o)) }
        ensures step { OnOk result (StepsBy (Some (state_of ByCount self.old)) (Some (state_of ByCount self.new)) object size _next) }
        ensures kept { OnErr result (self.new ≡ self.old) }
    {
        self.ask(alloc, object, size)
    }

    ghost state_fits = { λ p. (refl, refl) };
}

impl LetGo for WTinyLfu {
    /// It takes constant time. The object's count stays.
    fn let_go(&mut self, object: u32) {
        leave(&mut self.ring, object);
    }
}
