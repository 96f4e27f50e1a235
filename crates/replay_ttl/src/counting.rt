//! What a request writes, and what is counted of it.
ghost use Rattle.std.specs.Prelude.{◌≡◌, ◌+◌, ◌<◌, ◌^◌, ◌&&◌, ◌||◌, not, nat_le, if◌then◌else◌};
ghost use Rattle.cache_model.specs.Claim.{counts_past, only_fills};
ghost use Rattle.replay_core.specs.Outcomes.{is_hit};

use cache_rules::Trace;
use replay_core::{Outcome, Replay};

/// Whether the answer is a hit.
pub(crate) fn is_hit(outcome: Outcome) -> bool
    ensures { result ≡ is_hit outcome }
{
    outcome == Outcome::Hit
}

/// Whether request `t` writes its object: it is held after the request, which only fills or is no hit.
pub(crate) fn writes_anew(trace: &Trace, t: u32, is_hit: bool, is_held: bool) -> bool
    ensures { result ≡ ((only_fills trace.now.fills t || not is_hit) && is_held) }
{
    (trace.only_fills(t) || !is_hit) && is_held
}

/// Whether request `t` earns a hit: it counts, and is one.
pub(crate) fn earns(trace: &Trace, t: u32, warmup: u32, is_hit: bool) -> bool
    ensures { result ≡ (counts_past warmup trace.now.fills t && is_hit) }
{
    trace.counts(t, warmup) && is_hit
}

/// Whether what request `t` writes, if it does, is counted: it is past the warm-up.
pub(crate) fn is_paid(t: u32, warmup: u32, writes: bool) -> bool
    ensures { result ≡ (nat_le warmup t && writes) }
{
    warmup <= t && writes
}

// The number, if it is so.
fn if_so(so: bool, number: u64) -> u64
    ensures { result ≡ (if so then number else 0) }
{
    if so { number } else { 0 }
}

/// The counts after a request for an object of this size in bytes that earns a hit or not, and counts as a write or not.
pub(crate) fn counted_more(counts: Replay, size: u64, earns: bool, writes: bool) -> Replay
    requires hits { counts.hits + 1 < 2 ^ 64 }
    requires bytes { counts.bytes + size < 2 ^ 128 }
    requires written { counts.written + size < 2 ^ 128 }
    ensures hits { result.hits ≡ counts.hits + (if earns then 1 else 0) }
    ensures bytes { result.bytes ≡ counts.bytes + (if earns then size else 0) }
    ensures written { result.written ≡ counts.written + (if writes then size else 0) }
{
    Replay {
        hits: counts.hits + if_so(earns, 1),
        bytes: counts.bytes + u128::from(if_so(earns, size)),
        written: counts.written + u128::from(if_so(writes, size)),
    }
}
