//! The replay of a trace through a policy from which objects leave.
ghost use Rattle.std.specs.Prelude.{◌≡◌, ◌≤◌, [], length, IfOk, IfSome, OnOk};
ghost use Rattle.bit_list.specs.Bits.{bits_of};
ghost use Rattle.cache_model.specs.Objects.{objects_of};
ghost use Rattle.policy_model.specs.Runs.{AreScores};
ghost use Rattle.replay_core.specs.Laws.{IsFresh, IsTallied};
ghost use Rattle.replay_fresh.specs.Fresh.{unless_stale};
ghost use Rattle.replay_fresh.specs.FreshRuns.{IsFreshRunOf, IsFreshStateAfter, IsFreshlyPlayed, OnlyFill};

use crate::leaving::let_leave;
use bit_list::BitList;
use bound_base::NoMemory;
use cache_rules::Trace;
use indexmap::IndexMap;
use replay_core::{LetGo, Replay, has_written, hit_counts};
use std::alloc::Global;

/// The request of this number, if there is one and it is not stale.
pub fn unless_stale(stale: &BitList, request: Option<u32>) -> Option<u32>
    ensures { result ≡ unless_stale (bits_of stale.now) request }
{
    match request {
        Some(t) if !stale.get(t as usize) => Some(t),
        _ => None,
    }
}

/// Asks the policy for each request of the trace, as `replay` does, but before each lets go of its object, if the request is
/// stale, and if objects are replaced also of the last one of its volume and id, if that has another size. A next request
/// that is stale is none.
///
/// It takes the time of one call of the policy for each request and for each object that leaves, and if objects are
/// replaced one look-up for each request and one entry of a hash map for each id.
pub fn replay_fresh<P: LetGo>(
    alloc: Global,
    trace: &Trace,
    stale: &BitList,
    replace: bool,
    warmup: u32,
    policy: &mut P,
) -> Result<Replay, NoMemory>
    requires objects { length (objects_of trace.now.objects) ≤ P.objects policy.old }
    requires empty { P.contents policy.old ≡ [] }
    requires fresh { IsFresh (P.known_state policy.old) }
    requires only_fill { OnlyFill (bits_of stale.now) trace.now.fills trace.now.objects }
    ensures played { IfOk result (λ r. AreScores (P.room policy.old) warmup trace.now.fills trace.now.objects r.hits r.bytes) }
    ensures written { IfOk result (λ r. IsFreshlyPlayed (P.known_state policy.old) (P.room policy.old) warmup trace.now.fills (bits_of stale.now) replace trace.now.objects r.hits r.bytes r.written) }
    ensures run { IfOk result (λ r. IsFreshRunOf (P.known_state policy.old) trace.now.objects warmup trace.now.fills (bits_of stale.now) replace r.hits r.bytes) }
    ensures counted { IfOk result (λ r. IfSome (P.tally policy.old) (λ n. IsTallied n (P.tally policy.new) (length trace.now.objects) warmup trace.now.fills r.hits)) }
    ensures state { OnOk result (IsFreshStateAfter (P.known_state policy.old) (P.known_state policy.new) trace.now.objects warmup trace.now.fills (bits_of stale.now) replace) }
{
    let mut latest = IndexMap::new(alloc);
    let mut hits = 0;
    let mut bytes = 0;
    let mut written = 0;
    for t in 0..trace.len() {
        let object = trace.request(t);
        let size = trace.size_of(object);
        let_leave(trace, stale, replace, t, &mut latest, policy)?;
        let next = unless_stale(stale, trace.next(t));
        let outcome = policy.request(alloc, object, size, next)?;
        if hit_counts(trace, t, warmup, outcome) {
            hits += 1;
            bytes += size as u128;
        }
        if has_written(trace, t, warmup, outcome, policy, object) {
            written += size as u128;
        }
    }
    Ok(Replay {
        hits,
        bytes,
        written,
    })
}
