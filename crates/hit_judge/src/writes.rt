//! What claimed hits must write.
ghost use Rattle.std.specs.Prelude.{◌≡◌, ◌&&◌, ◌||◌, not, nat_le};
ghost use Rattle.bit_list.specs.Bits.{bits_of};
ghost use Rattle.cache_model.specs.Claim.{only_fills};
ghost use Rattle.judge_laws.specs.Flags.{is_flagged};
ghost use Rattle.hit_judge.specs.Claims.{IsLeastWritten};

use crate::causes::{next_is_flagged, requested_size};
use bit_list::BitList;
use cache_rules::Trace;

// Whether the object of request `t` must be written there, by whether the next request of it is flagged.
fn must_write(trace: &Trace, flags: &BitList, warmup: u32, t: u32, next_flagged: bool) -> bool
    ensures { result ≡ (nat_le warmup t && (next_flagged && (only_fills trace.now.fills t || not (is_flagged (bits_of flags.now) t)))) }
{
    t >= warmup && next_flagged && (trace.only_fills(t) || !flags.get(t as usize))
}

// The least bytes that contents write that hit exactly at the flagged requests.
pub(crate) fn least_written(trace: &Trace, flags: &BitList, warmup: u32) -> u128
    ensures { IsLeastWritten warmup trace.now.fills trace.now.objects (bits_of flags.now) result }
{
    let mut written = 0;
    for t in 0..trace.len() {
        let next_flagged = next_is_flagged(trace, flags, t);
        if must_write(trace, flags, warmup, t, next_flagged) {
            written += requested_size(trace, t) as u128;
        }
    }
    written
}
