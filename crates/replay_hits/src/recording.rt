//! The replay of a trace with a flag for each request.
ghost use Rattle.std.specs.Prelude.{◌≡◌, ◌≤◌, [], length, IfOk, IfSome};
ghost use Rattle.bit_list.specs.Bits.{bits_of};
ghost use Rattle.cache_model.specs.Objects.{objects_of};
ghost use Rattle.judge_laws.specs.Flags.{IsPossible};
ghost use Rattle.replay_core.specs.Laws.{IsFresh, IsTallied};
ghost use Rattle.replay_core.specs.Outcomes.{is_hit};
ghost use Rattle.replay_hits.specs.Hits.{AreHits, flag_count};

use bit_list::BitList;
use bound_base::NoMemory;
use cache_rules::Trace;
use replay_core::{Outcome, Policy};
use std::alloc::Global;

pub(crate) fn is_hit(outcome: Outcome) -> bool
    ensures { result ≡ is_hit outcome }
{
    outcome == Outcome::Hit
}

/// Asks the policy for each request of the trace, and flags those whose object it held. So the flags are possible hits.
///
/// It takes the time of one call of the policy and a bit of memory for each request.
pub fn replay_hits<P: Policy>(
    alloc: Global,
    trace: &Trace,
    policy: &mut P,
) -> Result<BitList, NoMemory>
    requires objects { length (objects_of trace.now.objects) ≤ P.objects policy.old }
    requires empty { P.contents policy.old ≡ [] }
    requires fresh { IsFresh (P.known_state policy.old) }
    ensures hits { IfOk result (λ flags. AreHits (P.known_state policy.old) (P.room policy.old) trace.now.objects (bits_of flags)) }
    ensures counted { IfOk result (λ flags. IfSome (P.tally policy.old) (λ n. IsTallied n (P.tally policy.new) (length trace.now.objects) 0 [] (flag_count (bits_of flags)))) }
    ensures possible { IfOk result (λ flags. IsPossible (P.room policy.old) trace.now.objects (bits_of flags)) }
{
    let mut flags = BitList::new(alloc);
    for t in 0..trace.len() {
        flags.make_room()?;
        let object = trace.request(t);
        let size = trace.size_of(object);
        let outcome = policy.request(alloc, object, size, trace.next(t))?;
        flags.push_reserved(is_hit(outcome));
    }
    Ok(flags)
}
