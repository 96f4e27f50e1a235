//! The replay of a trace with a time to live since the last write.
ghost use Rattle.std.specs.Prelude.{◌≡◌, ◌≤◌, [], length, IfOk};
ghost use Rattle.bit_list.specs.Bits.{bits_of};
ghost use Rattle.cache_model.specs.Objects.{objects_of};
ghost use Rattle.replay_core.specs.Laws.{IsFresh};
ghost use Rattle.replay_fresh.specs.FreshRuns.{OnlyFill};
ghost use Rattle.replay_ttl.specs.Played.{IsPlayedWithTtl, timed};

use crate::aging::{is_too_old, let_go_if_old};
use crate::counting::{counted_more, earns, is_hit, is_paid, writes_anew};
use bit_list::BitList;
use bound_base::NoMemory;
use cache_rules::Trace;
use indexmap::IndexMap;
use replay_core::{LetGo, Policy, Replay};
use replay_fresh::{let_leave, unless_stale};
use std::alloc::Global;

/// What a replay with a time to live goes by.
#[derive(Clone, Copy, Debug, PartialEq, Eq)]
pub struct TtlSettings {
    /// The time that an object is fresh after it was last written, in the unit of the times.
    pub ttl: u64,
    /// Whether an object leaves once its id is asked for with another size.
    pub replace: bool,
    /// How many requests at first count for nothing.
    pub warmup: u32,
}

/// What a replay with a time to live counts, and of each request whether it was answered as a hit.
#[derive(Debug, Drop)]
pub struct TtlReplay {
    pub counts: Replay,
    pub hits: BitList,
}

/// Asks the policy for each request of the trace, as `replay_fresh` does, but before each also lets go of its object if more
/// than the time to live passed by the clock since it was last written. A hit that counts renews nothing; a request that
/// only fills writes its object anew if that is held after it.
///
/// It takes the time of `replay_fresh`, 8 bytes of memory for each object and a bit for each request. The error says that
/// memory ran out.
pub fn replay_with_ttl<P: LetGo>(
    alloc: Global,
    trace: &Trace,
    times: &[u64],
    stale: &BitList,
    settings: TtlSettings,
    policy: &mut P,
) -> Result<TtlReplay, NoMemory>
    requires one_time_each { length times.now ≡ length trace.now.objects }
    requires objects { length (objects_of trace.now.objects) ≤ P.objects policy.old }
    requires empty { P.contents policy.old ≡ [] }
    requires fresh { IsFresh (P.known_state policy.old) }
    requires only_fill { OnlyFill (bits_of stale.now) trace.now.fills trace.now.objects }
    ensures played { IfOk result (λ r. IsPlayedWithTtl (P.known_state policy.old) (P.room policy.old) (timed trace.now.objects trace.now.fills times.now (bits_of stale.now) settings) r.counts.hits r.counts.bytes r.counts.written (bits_of r.hits)) }
{
    let mut clocks: Vec<u64> = vec![in alloc; 0; trace.objects() as usize]?;
    let mut latest = IndexMap::new(alloc);
    let mut flags = BitList::new(alloc);
    let mut counts = Replay {
        hits: 0,
        bytes: 0,
        written: 0,
    };
    let mut clock: u64 = 0;
    for t in 0..trace.len() {
        flags.make_room()?;
        clock = clock.max(times[t as usize]);
        let object = trace.request(t);
        let size = trace.size_of(object);
        let is_old = is_too_old(clock, clocks[object as usize], settings.ttl);
        let_go_if_old(policy, object, is_old);
        let_leave(trace, stale, settings.replace, t, &mut latest, policy)?;
        let next = unless_stale(stale, trace.next(t));
        let outcome = policy.request(alloc, object, size, next)?;
        let hit = is_hit(outcome);
        let held = policy.holds(object);
        let writes = writes_anew(trace, t, hit, held);
        if writes {
            clocks[object as usize] = clock;
        }
        let earned = earns(trace, t, settings.warmup, hit);
        let paid = is_paid(t, settings.warmup, writes);
        counts = counted_more(counts, size, earned, paid);
        flags.push_reserved(hit);
    }
    Ok(TtlReplay {
        counts,
        hits: flags,
    })
}
