//! What claimed hits are worth, and what they must write.
ghost use Rattle.std.specs.Prelude.{◌≡◌, ◌&&◌};
ghost use Rattle.bit_list.specs.Bits.{bits_of};
ghost use Rattle.cache_model.specs.declared.objects.Objective.TheVariants.{Object as Hits, Bytes};
ghost use Rattle.cache_model.specs.Claim.{counts_past};
ghost use Rattle.judge_laws.specs.Flags.{is_flagged};
ghost use Rattle.hit_judge.specs.Claims.{IsClaim, IsLeastWritten};

use crate::causes::requested_size;
use crate::writes::least_written;
use bit_list::BitList;
use cache_rules::Trace;

/// The flagged requests that count, the bytes of their objects, and the bytes that the flags must write.
#[derive(Clone, Copy, Debug, PartialEq, Eq)]
pub struct Claimed {
    pub hits: u64,
    pub bytes: u128,
    /// The least bytes that contents must write that hit exactly at the flagged requests, from the warm-up on: an object
    /// that is hit at a flagged request is written at its last request before, if that one is past the warm-up and
    /// only fills or isn't flagged.
    pub written: u128,
}

// Whether request `t` is flagged and counts.
fn is_claimed(trace: &Trace, flags: &BitList, warmup: u32, t: u32) -> bool
    ensures { result ≡ (counts_past warmup trace.now.fills t && is_flagged (bits_of flags.now) t) }
{
    trace.counts(t, warmup) && flags.get(t as usize)
}

// Counts what the flags claim, and what they must write.
pub(crate) fn count_claimed(trace: &Trace, flags: &BitList, warmup: u32) -> Claimed
    ensures hits { IsClaim Hits warmup trace.now.fills trace.now.objects (bits_of flags.now) result.hits }
    ensures bytes { IsClaim Bytes warmup trace.now.fills trace.now.objects (bits_of flags.now) result.bytes }
    ensures written { IsLeastWritten warmup trace.now.fills trace.now.objects (bits_of flags.now) result.written }
{
    let mut hits = 0;
    let mut bytes = 0;
    for t in 0..trace.len() {
        if is_claimed(trace, flags, warmup, t) {
            hits += 1;
            bytes += requested_size(trace, t) as u128;
        }
    }
    Claimed {
        hits,
        bytes,
        written: least_written(trace, flags, warmup),
    }
}
