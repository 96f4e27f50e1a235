//! What is asked of a policy whose objects may leave before its rule gives them up.
ghost use Rattle.std.specs.Prelude.{◌≡◌, ◌<◌};
ghost use Rattle.policy_model.specs.Leaving.{without_member};
ghost use Rattle.replay_core.specs.Laws.{IsSound, LetsGo};

use crate::policy::Policy;

/// A policy that can let go of an object that its rule did not give up, as one that has expired.
pub trait LetGo: Policy {
    /// Lets go of the object, if it is held. What the rule goes by is as it was for all the others: their order, marks,
    /// counts and ranks, and what is known of objects that are not held.
    ///
    /// It takes no memory, and at most time logarithmic in the number of entries, one call with another.
    fn let_go(&mut self, object: u32)
        requires known { object < Self.objects self.old }
        ensures contents { Self.contents self.new ≡ without_member object (Self.contents self.old) }
        ensures sound { IsSound (Self.room self.new) (Self.contents self.new) }
        ensures same_capacity { Self.room self.new ≡ Self.room self.old }
        ensures same_objects { Self.objects self.new ≡ Self.objects self.old }
        ensures same_tally { Self.tally self.new ≡ Self.tally self.old }
        ensures state { LetsGo (Self.known_state self.old) (Self.known_state self.new) object };
}
