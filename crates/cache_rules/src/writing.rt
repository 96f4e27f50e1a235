//! What contents that are given by keeps write.
ghost use Rattle.std.specs.Prelude.{◌≡◌, ◌<◌, ◌&&◌, ◌||◌, not, nat_le, length};
ghost use Rattle.cache_model.specs.Claim.{contents_of, held_before, holds, is_kept, only_fills, request_at};
ghost use Rattle.cache_model.specs.Written.{written_bytes};

use crate::scoring::{is_hit, requested};
use crate::trace::Trace;

// Whether request `t` is past the warm-up, and the contents have its object after it, where it enters or is written anew.
fn writes(trace: &Trace, warmup: u32, keeps: &[bool], t: u32) -> bool
    requires one_keep_each { length keeps.now ≡ length trace.now.objects }
    requires within { t < length trace.now.objects }
    ensures { result ≡ (nat_le warmup t && (is_kept keeps.now t && (only_fills trace.now.fills t || not (holds (held_before trace.now.objects keeps.now t) (request_at trace.now.objects t))))) }
{
    t >= warmup && keeps[t as usize] && (trace.only_fills(t) || !is_hit(trace, keeps, t))
}

/// The bytes that the contents of the keeps write from request `warmup` on: the sizes of the objects that enter, and of
/// those that are held and written anew by a request that only fills.
///
/// It goes over the requests once, and takes no memory.
pub fn written_bytes(trace: &Trace, warmup: u32, keeps: &[bool]) -> u128
    requires one_keep_each { length keeps.now ≡ length trace.now.objects }
    ensures { result ≡ written_bytes warmup trace.now.fills trace.now.objects (contents_of trace.now.objects keeps.now) }
{
    let mut written = 0;
    for t in 0..trace.len() {
        if writes(trace, warmup, keeps, t) {
            written += requested(trace, t).size as u128;
        }
    }
    written
}
