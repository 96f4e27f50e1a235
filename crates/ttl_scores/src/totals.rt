//! One pass over the requests, which knows of each object when it was last written.
ghost use Rattle.std.specs.Prelude.{◌≡◌, ◌<◌, ◌+◌, ◌&&◌, not, nat_le, if◌then◌else◌, length, IfOk};
ghost use Rattle.cache_model.specs.Claim.{contents_of, counts, gain_of, held_before, holds, is_kept, marked, only_fills, request_at};
ghost use Rattle.ttl_laws.specs.Fresh.{score_with_ttl};
ghost use Rattle.ttl_scores.specs.Written.{written_with_ttl};

use bound_base::NoMemory;
use cache_rules::{Object, Terms, Trace, gain};
use std::alloc::Global;

/// What contents score and write whose objects expire a time after they were written.
#[derive(Clone, Copy, Debug, PartialEq, Eq)]
pub struct FreshTotals {
    /// The gains of the fresh hits that count, in hits or in bytes, as the objective says.
    pub score: u128,
    /// The sizes of what is written from the warm-up on, in bytes.
    pub written: u128,
}

// Whether the object of request `t` is held before it: the latest keep of an object is that of its request before.
fn is_held(trace: &Trace, keeps: &[bool], t: u32) -> bool
    requires one_keep_each { length keeps.now ≡ length trace.now.objects }
    requires within { t < length trace.now.objects }
    ensures { result ≡ holds (held_before trace.now.objects keeps.now t) (request_at trace.now.objects t) }
{
    match trace.prev(t) {
        Some(earlier) => keeps[earlier as usize],
        None => false,
    }
}

// Whether request `t`, at this clock, is a fresh hit on what was last written at that one.
fn is_fresh(trace: &Trace, keeps: &[bool], t: u32, ttl: u64, clock: u64, written: u64) -> bool
    requires one_keep_each { length keeps.now ≡ length trace.now.objects }
    requires within { t < length trace.now.objects }
    ensures { result ≡ (holds (held_before trace.now.objects keeps.now t) (request_at trace.now.objects t) && not (only_fills trace.now.fills t) && nat_le clock (written + ttl)) }
{
    is_held(trace, keeps, t) && !trace.only_fills(t) && clock.saturating_sub(written) <= ttl
}

// Whether request `t` writes its object: it is held after the request, which is no fresh hit.
fn writes_anew(keeps: &[bool], t: u32, fresh: bool) -> bool
    requires within { t < length keeps.now }
    ensures { result ≡ (is_kept keeps.now t && not fresh) }
{
    keeps[t as usize] && !fresh
}

// What request `t` earns: the gain of a fresh hit, if the request counts.
fn earned(trace: &Trace, terms: Terms, t: u32, object: &Object, fresh: bool) -> u64
    ensures { result ≡ (if counts (marked terms trace.now.fills) t && fresh then gain_of terms.objective object.now else 0) }
{
    if fresh && trace.counts(t, terms.warmup) {
        gain(terms.objective, object)
    } else {
        0
    }
}

// The bytes of what request `t` writes, if it is past the warm-up.
fn written_past(warmup: u32, t: u32, object: &Object, anew: bool) -> u64
    ensures { result ≡ (if nat_le warmup t && anew then object.now.size else 0) }
{
    if t >= warmup && anew { object.size } else { 0 }
}

/// The score and the written bytes of the contents that the keeps stand for, with a time to live in the unit of the times.
///
/// What is kept counts no hit once it is too old, and is then written anew. Whether it fits the capacity is not looked at.
/// It goes over the requests once, and takes 8 bytes for each object. The error says that memory ran out.
pub fn fresh_totals(
    alloc: Global,
    trace: &Trace,
    times: &[u64],
    ttl: u64,
    terms: Terms,
    keeps: &[bool],
) -> Result<FreshTotals, NoMemory>
    requires one_keep_each { length keeps.now ≡ length trace.now.objects }
    requires one_time_each { length times.now ≡ length trace.now.objects }
    ensures score { IfOk result (λ totals. totals.score ≡ score_with_ttl (marked terms trace.now.fills) trace.now.objects times.now ttl (contents_of trace.now.objects keeps.now)) }
    ensures written { IfOk result (λ totals. totals.written ≡ written_with_ttl terms.warmup trace.now.fills trace.now.objects times.now ttl (contents_of trace.now.objects keeps.now)) }
{
    let mut clocks: Vec<u64> = vec![in alloc; 0; trace.objects() as usize]?;
    let mut clock: u64 = 0;
    let mut score: u128 = 0;
    let mut written: u128 = 0;
    for t in 0..trace.len() {
        clock = clock.max(times[t as usize]);
        let number = trace.request(t);
        let object = trace.object(number);
        let fresh = is_fresh(trace, keeps, t, ttl, clock, clocks[number as usize]);
        let anew = writes_anew(keeps, t, fresh);
        if anew {
            clocks[number as usize] = clock;
        }
        score += earned(trace, terms, t, &object, fresh) as u128;
        written += written_past(terms.warmup, t, &object, anew) as u128;
    }
    Ok(FreshTotals { score, written })
}
