//! The judgement.
ghost use Rattle.std.specs.Prelude.{◌≡◌, ◌↔◌, IsOk, IfOk};
ghost use Rattle.std.specs.Result.{result_err};
ghost use Rattle.bit_list.specs.Bits.{bits_of};
ghost use Rattle.cache_model.specs.declared.objects.Objective.TheVariants.{Object as Hits, Bytes};
ghost use Rattle.cache_model.specs.Claim.{terms_from};
ghost use Rattle.judge_laws.specs.Flags.{claimed};
ghost use Rattle.write_laws.specs.Claims.{least_written};
ghost use Rattle.hit_judge.specs.Causes.{first_cause};
ghost use Rattle.hit_judge.specs.Possible.{IsPossibleFresh};

use crate::causes::{Impossible, first_at_request, first_at_step};
use crate::claims::{Claimed, count_claimed};
use bit_list::BitList;
use cache_rules::Trace;

/// Whether the flagged requests are possible hits of a cache of this capacity in bytes: what they claim and must write
/// from the warm-up on if they are, and else the first cause why they are not. Request `t` has the flag at place `t`, and
/// whether it is stale at place `t` of `stale`; past their ends none is flagged, and none is stale.
///
/// It takes no memory, and time in the number of requests.
pub fn judge(
    trace: &Trace,
    stale: &BitList,
    flags: &BitList,
    capacity: u64,
    warmup: u32,
) -> Result<Claimed, Impossible>
    ensures possible { IsOk result ↔ IsPossibleFresh capacity trace.now.objects (bits_of stale.now) (bits_of flags.now) }
    ensures hits { IfOk result (λ c. c.hits ≡ claimed (terms_from Hits capacity warmup trace.now.fills) trace.now.objects (bits_of flags.now)) }
    ensures bytes { IfOk result (λ c. c.bytes ≡ claimed (terms_from Bytes capacity warmup trace.now.fills) trace.now.objects (bits_of flags.now)) }
    ensures written { IfOk result (λ c. c.written ≡ least_written capacity warmup trace.now.fills trace.now.objects (bits_of flags.now)) }
    ensures cause { result_err result ≡ first_cause capacity trace.now.objects (bits_of stale.now) (bits_of flags.now) }
{
    if let Some(cause) = first_at_request(trace, stale, flags, capacity) {
        return Err(cause);
    }
    if let Some(cause) = first_at_step(trace, flags, capacity) {
        return Err(cause);
    }
    Ok(count_claimed(trace, flags, warmup))
}
