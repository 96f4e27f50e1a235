//! What is asked of a policy, and the laws that each keeps.
ghost use Rattle.std.specs.Prelude.{◌≡◌, ◌<◌, ◌≤◌, ◌⊎◌, ℕ, List, All, Contains, IfOk, IfSome, OnOk, OnErr};
ghost use Rattle.std.specs.declared.option.Option.{Option};
ghost use Rattle.policy_model.specs.States.{Member, State, member, has_member};
ghost use Rattle.replay_core.specs.Outcomes.{is_hit};
ghost use Rattle.replay_core.specs.Laws.{CountsAnswer, IsSound, StateFits, StepsBy, Tally};

use bound_base::NoMemory;
use std::alloc::Global;

/// Whether the object of a request was held before it.
#[derive(Clone, Copy, Debug, PartialEq, Eq)]
pub enum Outcome {
    Hit,
    Miss,
}

/// A cache under one rule of replacement. Objects are asked for by number, and sizes are in bytes.
///
/// One that has a known state can be compared with the rules of `PolicyName`; another may keep its own rule for itself,
/// and the laws hold of it all the same. If it counts its answers, a replay has had as many of them as the trace has
/// requests, and its hits are no more than those that were answered as hits.
pub trait Policy {
    /// What it holds.
    ghost contents: { Self → List Member };

    /// A number above that of each object that it may be asked for.
    ghost objects: { Self → ℕ };

    /// Its capacity, in bytes.
    ghost room: { Self → ℕ };

    /// Its state, if it is known.
    ghost known_state: { Self → Option State };

    /// How many requests it has answered, and how many of them as hits, if it counts them.
    ghost tally: { Self → Option Tally };

    /// The most bytes that it holds.
    fn capacity(&self) -> u64
        ensures capacity { result ≡ room self.now }
        ensures sound { IsSound (room self.now) (contents self.now) };

    /// Whether it holds the object.
    fn holds(&self, object: u32) -> bool
        ensures { result ≡ has_member (contents self.now) object };

    /// Asks for the object, and says whether it was held. `next` is the number of the object's next request in the
    /// trace, if there is one.
    fn request(
        &mut self,
        alloc: Global,
        object: u32,
        size: u64,
        next: Option<u32>,
    ) -> Result<Outcome, NoMemory>
        requires known { object < objects self.old }
        requires size { 1 ≤ size }
        requires kept_size { All (λ m. m.object ≡ object → m.size ≡ size) (contents self.old) }
        ensures outcome { IfOk result (λ o. is_hit o ≡ has_member (contents self.old) object) }
        ensures only_the_request_enters { OnOk result ((m : Member) → Contains (contents self.new) m → Contains (contents self.old) m ⊎ (m ≡ member object size)) }
        ensures none_enters { OnErr result ((m : Member) → Contains (contents self.new) m → Contains (contents self.old) m) }
        ensures sound { IsSound (room self.new) (contents self.new) }
        ensures same_capacity { room self.new ≡ room self.old }
        ensures same_objects { objects self.new ≡ objects self.old }
        ensures counted { IfOk result (λ o. CountsAnswer (tally self.old) (tally self.new) (is_hit o)) }
        ensures step { OnOk result (StepsBy (known_state self.old) (known_state self.new) object size next) };

    /// A state that is known is that of what is held.
    ghost state_fits: { (p : Self) → StateFits (known_state p) (contents p) (room p) };
}
