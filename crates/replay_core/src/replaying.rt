//! The replay of a trace through a policy.
ghost use Rattle.std.specs.Prelude.{◌≡◌, ◌≤◌, ◌&&◌, ◌||◌, nat_le, not, [], length, IfOk, IfSome, OnOk};
ghost use Rattle.cache_model.specs.Claim.{counts_past, only_fills};
ghost use Rattle.cache_model.specs.Objects.{objects_of};
ghost use Rattle.policy_model.specs.Runs.{AreScores, IsPlayed};
ghost use Rattle.policy_model.specs.States.{has_member};
ghost use Rattle.replay_core.specs.Laws.{IsFresh, IsRunOf, IsStateAfter, IsTallied};
ghost use Rattle.replay_core.specs.Outcomes.{is_hit};

use crate::counts::Replay;
use crate::policy::{Outcome, Policy};
use bound_base::NoMemory;
use cache_rules::Trace;
use std::alloc::Global;

/// Whether the answer to request `t` is a hit that counts.
pub fn hit_counts(trace: &Trace, t: u32, warmup: u32, outcome: Outcome) -> bool
    ensures { result ≡ (counts_past warmup trace.now.fills t && is_hit outcome) }
{
    trace.counts(t, warmup) && outcome == Outcome::Hit
}

/// Whether request `t`, which was answered so, wrote its object: it is past the warm-up, and the policy took the object in or
/// wrote it anew.
pub fn has_written<P: Policy>(
    trace: &Trace,
    t: u32,
    warmup: u32,
    outcome: Outcome,
    policy: &P,
    object: u32,
) -> bool
    ensures { result ≡ (nat_le warmup t && ((only_fills trace.now.fills t || not (is_hit outcome)) && has_member (P.contents policy.now) object)) }
{
    t >= warmup && (trace.only_fills(t) || outcome == Outcome::Miss) && policy.holds(object)
}

/// Asks the policy for each request of the trace, and counts the hits of those that count and the bytes that are written,
/// from request `warmup` on.
///
/// It takes the time of one call of the policy for each request.
pub fn replay<P: Policy>(
    alloc: Global,
    trace: &Trace,
    warmup: u32,
    policy: &mut P,
) -> Result<Replay, NoMemory>
    requires objects { length (objects_of trace.now.objects) ≤ P.objects policy.old }
    requires empty { P.contents policy.old ≡ [] }
    requires fresh { IsFresh (P.known_state policy.old) }
    ensures played { IfOk result (λ r. AreScores (P.room policy.old) warmup trace.now.fills trace.now.objects r.hits r.bytes) }
    ensures written { IfOk result (λ r. IsPlayed (P.known_state policy.old) (P.room policy.old) warmup trace.now.fills trace.now.objects r.hits r.bytes r.written) }
    ensures run { IfOk result (λ r. IsRunOf (P.known_state policy.old) trace.now.objects warmup trace.now.fills r.hits r.bytes) }
    ensures counted { IfOk result (λ r. IfSome (P.tally policy.old) (λ n. IsTallied n (P.tally policy.new) (length trace.now.objects) warmup trace.now.fills r.hits)) }
    ensures state { OnOk result (IsStateAfter (P.known_state policy.old) (P.known_state policy.new) trace.now.objects warmup trace.now.fills) }
{
    let mut hits = 0;
    let mut bytes = 0;
    let mut written = 0;
    for t in 0..trace.len() {
        let object = trace.request(t);
        let size = trace.size_of(object);
        let outcome = policy.request(alloc, object, size, trace.next(t))?;
        if hit_counts(trace, t, warmup, outcome) {
            hits += 1;
            bytes += size as u128;
        }
        if has_written(trace, t, warmup, outcome, policy, object) {
            written += size as u128;
        }
    }
    Ok(Replay {
        hits,
        bytes,
        written,
    })
}
