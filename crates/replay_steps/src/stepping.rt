//! One request more of a replay.
ghost use Rattle.std.specs.Prelude.{◌≡◌, ◌+◌, ◌<◌, ◌≤◌, ◌^◌, [], ℕ, All, IfOk, IfSome, option_to_list};
ghost use Rattle.replay_core.specs.Outcomes.{is_hit};
ghost use Rattle.replay_fresh.specs.FreshRuns.{LetsGoAll, members_without};
ghost use Rattle.replay_steps.specs.Steps.{IsReplayedTo, IsRequest, Replaying, leaving_of, own_leaving};

use crate::asked::Asked;
use crate::counting::counted_more;
use bound_base::NoMemory;
use replay_core::{LetGo, Outcome, Replay};
use replay_fresh::let_go_of;
use std::alloc::Global;

// Whether the answer is a hit.
fn is_hit(outcome: Outcome) -> bool
    ensures { result ≡ is_hit outcome }
{
    outcome == Outcome::Hit
}

// The number of the request's own object, if that leaves before it.
fn own_leaving(asked: &Asked) -> Option<u32>
    ensures own { option_to_list result ≡ own_leaving asked.now }
    ensures same { IfSome result (λ k. k ≡ asked.now.object) }
{
    asked.is_stale.then_some(asked.object)
}

// Lets go of what leaves before the request.
fn let_leave<P: LetGo>(policy: &mut P, asked: &Asked)
    requires known { asked.now.object < P.objects policy.old }
    requires replaced { IfSome asked.now.replaced (λ k. k < P.objects policy.old) }
    ensures contents { P.contents policy.new ≡ members_without (P.contents policy.old) (leaving_of asked.now) }
    ensures same_capacity { P.room policy.new ≡ P.room policy.old }
    ensures same_objects { P.objects policy.new ≡ P.objects policy.old }
    ensures state { LetsGoAll (P.known_state policy.old) (P.known_state policy.new) (leaving_of asked.now) }
{
    let_go_of(policy, own_leaving(asked));
    let_go_of(policy, asked.replaced);
}

/// What is counted before the first request: nothing.
pub fn begin<P: LetGo>(policy: &P) -> Replay
    ensures { (r : Replaying) → r.capacity ≡ P.room policy.now → r.first ≡ P.known_state policy.now → P.contents policy.now ≡ []
        → IsReplayedTo r 0 (P.known_state policy.now) (P.contents policy.now) result }
{
    let _ = policy;
    Replay {
        hits: 0,
        bytes: 0,
        written: 0,
    }
}

/// Asks the policy for one request more, of whatever trace it is the next one, and counts it. What leaves before it is let
/// go of.
///
/// It takes the time of one call of the policy, and of one for each object that leaves.
pub fn step<P: LetGo>(
    alloc: Global,
    policy: &mut P,
    asked: &Asked,
    counts: Replay,
) -> Result<Replay, NoMemory>
    requires known { asked.now.object < P.objects policy.old }
    requires replaced { IfSome asked.now.replaced (λ k. k < P.objects policy.old) }
    requires size { (1 ≤ asked.now.size) × (asked.now.size ≤ 2 ^ 48) }
    requires kept_size { All (λ m. m.object ≡ asked.now.object → m.size ≡ asked.now.size) (P.contents policy.old) }
    requires few { (counts.hits + 1 < 2 ^ 64) × (counts.bytes + 2 ^ 48 < 2 ^ 128) × (counts.written + 2 ^ 48 < 2 ^ 128) }
    ensures same_capacity { P.room policy.new ≡ P.room policy.old }
    ensures same_objects { P.objects policy.new ≡ P.objects policy.old }
    ensures replayed { IfOk result (λ more. (r : Replaying) (t : ℕ) → r.capacity ≡ P.room policy.old → IsRequest r t asked.now
        → IsReplayedTo r t (P.known_state policy.old) (P.contents policy.old) counts
        → IsReplayedTo r (t + 1) (P.known_state policy.new) (P.contents policy.new) more) }
{
    let_leave(policy, asked);
    let outcome = policy.request(alloc, asked.object, asked.size, asked.next)?;
    let is_held = policy.holds(asked.object);
    Ok(counted_more(counts, asked, is_hit(outcome), is_held))
}
