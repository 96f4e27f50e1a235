//! The replay of a trace from which objects leave, with a flag for each request.
ghost use Rattle.std.specs.Prelude.{◌≡◌, ◌≤◌, [], length, IfOk};
ghost use Rattle.bit_list.specs.Bits.{bits_of};
ghost use Rattle.cache_model.specs.Objects.{objects_of};
ghost use Rattle.replay_core.specs.Laws.{IsFresh};
ghost use Rattle.replay_hits.specs.FreshHits.{AreFreshHits};

use crate::recording::is_hit;
use bit_list::BitList;
use bound_base::NoMemory;
use cache_rules::Trace;
use indexmap::IndexMap;
use replay_core::LetGo;
use replay_fresh::{let_leave, unless_stale};
use std::alloc::Global;

/// Asks the policy for each request of the trace, before which objects leave as in `replay_fresh`, and flags those whose object
/// it held and which are not stale.
///
/// It takes the time of `replay_fresh` and a bit of memory for each request.
pub fn fresh_hits<P: LetGo>(
    alloc: Global,
    trace: &Trace,
    stale: &BitList,
    replace: bool,
    policy: &mut P,
) -> Result<BitList, NoMemory>
    requires objects { length (objects_of trace.now.objects) ≤ P.objects policy.old }
    requires empty { P.contents policy.old ≡ [] }
    requires fresh { IsFresh (P.known_state policy.old) }
    ensures hits { IfOk result (λ flags. AreFreshHits (P.known_state policy.old) (P.room policy.old) trace.now.objects (bits_of stale.now) replace (bits_of flags)) }
{
    let mut latest = IndexMap::new(alloc);
    let mut flags = BitList::new(alloc);
    for t in 0..trace.len() {
        flags.make_room()?;
        let object = trace.request(t);
        let size = trace.size_of(object);
        let_leave(trace, stale, replace, t, &mut latest, policy)?;
        let next = unless_stale(stale, trace.next(t));
        let outcome = policy.request(alloc, object, size, next)?;
        flags.push_reserved(is_hit(outcome));
    }
    Ok(flags)
}
