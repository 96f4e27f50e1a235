//! Why claimed hits are not possible.
ghost use Rattle.std.specs.Prelude.{◌≡◌, ◌≤◌, ◌<◌, ◌+◌, ◌^◌, if◌then◌else◌, length};
ghost use Rattle.bit_list.specs.Bits.{bits_of};
ghost use Rattle.cache_model.specs.Claim.{request_at};
ghost use Rattle.cache_model.specs.Objects.{is_first};
ghost use Rattle.hit_judge.specs.Causes.{CanHitFlagged, never_hits, request_cause, first_at_request, IsNextFlagged, first_at_step};

use bit_list::BitList;
use cache_rules::Trace;

/// Why claimed hits are not possible. Requests and steps count from 0.
#[derive(Clone, Copy, Debug, PartialEq, Eq)]
pub enum Impossible {
    /// The flagged request is the first of its object, which is no larger than the capacity.
    First { request: u32 },
    /// The object of the flagged request is larger than the capacity: its size, in bytes.
    Size { request: u32, size: u64 },
    /// The flagged request is stale: its object expired or was replaced since it was last asked for. Its object is no larger
    /// than the capacity, and was asked for before.
    Stale { request: u32 },
    /// The object of the flagged request was last written more than `ttl` ago: how long ago, by the clock, in the unit of the
    /// trace's times.
    Age { request: u32, age: u64, ttl: u64 },
    /// The sizes of the flagged intervals over the step sum to more than the capacity: that sum, in bytes.
    Load { step: u32, load: u128 },
}

// The size of the object of request `t`.
pub(crate) fn requested_size(trace: &Trace, t: u32) -> u64
    requires within { t < length trace.now.objects }
    ensures size { result ≡ (request_at trace.now.objects t).size }
    ensures most { result ≤ 2 ^ 48 }
{
    trace.object(trace.request(t)).size
}

// Whether request `t` is the first of its object.
fn is_first(trace: &Trace, t: u32) -> bool
    requires within { t < length trace.now.objects }
    ensures { result ≡ is_first trace.now.objects t }
{
    trace.prev(t).is_none()
}

// Whether no contents can hit at request `t`.
fn never_hits(trace: &Trace, stale: &BitList, capacity: u64, t: u32) -> bool
    requires within { t < length trace.now.objects }
    ensures { result ≡ never_hits capacity trace.now.objects (bits_of stale.now) t }
{
    is_first(trace, t) || requested_size(trace, t) > capacity || stale.get(t as usize)
}

// Why no contents can hit at request `t`, if none can.
fn request_cause(trace: &Trace, capacity: u64, t: u32) -> Impossible
    requires within { t < length trace.now.objects }
    ensures { result ≡ request_cause capacity trace.now.objects t }
{
    let size = requested_size(trace, t);
    if size > capacity {
        Impossible::Size { request: t, size }
    } else if is_first(trace, t) {
        Impossible::First { request: t }
    } else {
        Impossible::Stale { request: t }
    }
}

// The cause at the first flagged request where no contents can hit.
pub(crate) fn first_at_request(
    trace: &Trace,
    stale: &BitList,
    flags: &BitList,
    capacity: u64,
) -> Option<Impossible>
    ensures { result ≡ first_at_request capacity trace.now.objects (bits_of stale.now) (bits_of flags.now) }
{
    for t in 0..trace.len() {
        if flags.get(t as usize) && never_hits(trace, stale, capacity, t) {
            return Some(request_cause(trace, capacity, t));
        }
    }
    None
}

// Whether the next request of the object of request `t` is flagged.
pub(crate) fn next_is_flagged(trace: &Trace, flags: &BitList, t: u32) -> bool
    requires within { t < length trace.now.objects }
    ensures { IsNextFlagged trace.now.objects (bits_of flags.now) t result }
{
    match trace.next(t) {
        Some(next) => flags.get(next as usize),
        None => false,
    }
}

// A load, after an interval of this size starts, one ends, or both.
fn moved(load: u128, size: u64, starts: bool, ends: bool) -> u128
    requires held { (if ends then size else 0) ≤ load + (if starts then size else 0) }
    requires room { load < 2 ^ 64 }
    ensures { result + (if ends then size else 0) ≡ load + (if starts then size else 0) }
{
    let mut load = load;
    if starts {
        load += size as u128;
    }
    if ends {
        load -= size as u128;
    }
    load
}

// The cause at the first step whose flagged load is above the capacity. It sums one running load.
pub(crate) fn first_at_step(trace: &Trace, flags: &BitList, capacity: u64) -> Option<Impossible>
    requires hits { CanHitFlagged capacity trace.now.objects (bits_of flags.now) }
    ensures { result ≡ first_at_step capacity trace.now.objects (bits_of flags.now) }
{
    let mut load = 0;
    for t in 0..trace.len() {
        let starts = next_is_flagged(trace, flags, t);
        load = moved(
            load,
            requested_size(trace, t),
            starts,
            flags.get(t as usize),
        );
        if load > capacity as u128 {
            return Some(Impossible::Load { step: t, load });
        }
    }
    None
}
