//! What is too old, and leaves.
ghost use Rattle.std.specs.Prelude.{◌≡◌, ◌<◌};
ghost use Rattle.replay_fresh.specs.FreshRuns.{LetsGoAll, members_without};
ghost use Rattle.replay_ttl.specs.Runs.{is_too_old, own_if_old};

use replay_core::{LetGo, Policy};
use replay_fresh::let_go_of;

/// Whether more than the time to live passed from the clock at a write to the clock now, all in one unit.
pub(crate) fn is_too_old(clock: u64, written: u64, ttl: u64) -> bool
    ensures { result ≡ is_too_old clock written ttl }
{
    clock.saturating_sub(written) > ttl
}

/// Lets go of the object of a request, if it is too old.
pub(crate) fn let_go_if_old<P: LetGo>(policy: &mut P, object: u32, is_old: bool)
    requires known { object < P.objects policy.old }
    ensures contents { P.contents policy.new ≡ members_without (P.contents policy.old) (own_if_old is_old object) }
    ensures same_capacity { P.room policy.new ≡ P.room policy.old }
    ensures same_objects { P.objects policy.new ≡ P.objects policy.old }
    ensures state { LetsGoAll (P.known_state policy.old) (P.known_state policy.new) (own_if_old is_old object) }
{
    let own = if is_old { Some(object) } else { None };
    let_go_of(policy, own);
}
