//! LRU's hits at each of many capacities, from one pass over the requests.
ghost use Rattle.std.specs.Prelude.{◌≡◌, ℕ, ◌+◌, ◌<◌, ◌≤◌, ◌^◌, All, IfOk};
ghost use Rattle.std.specs.Prelude.{length, replicate, slice_index, slice_index_or, sum_by};
ghost use Rattle.std.specs.List.Sorted.{IsNonDecreasing};
ghost use Rattle.cache_model.specs.Claim.{request_at};
ghost use Rattle.byte_curve.specs.Sizes.{greatest_size};
ghost use Rattle.byte_curve.specs.Counts.{AreFound, bytes_at, bytes_to, hits_to, no_hits, plus};
ghost use Rattle.byte_curve.specs.Curves.{AreHits};

use crate::sums::ByteSums;
use bound_base::NoMemory;
use cache_rules::Trace;
use std::alloc::Global;

/// LRU's hits at a capacity, and the sizes of their objects, summed.
#[derive(Clone, Copy, Debug, PartialEq, Eq)]
pub struct Hits {
    pub hits: u64,
    pub bytes: u128,
}

impl Hits {
    // These and more.
    fn plus(self, more: Hits) -> Hits
        requires hits { self.hits + more.hits < 2 ^ 64 }
        requires bytes { self.bytes + more.bytes < 2 ^ 128 }
        ensures { result ≡ plus self more }
    {
        Hits {
            hits: self.hits + more.hits,
            bytes: self.bytes + more.bytes,
        }
    }
}

// The size of the object of request `t`, in bytes.
fn size_at(trace: &Trace, t: u32) -> u64
    requires within { t < length trace.now.objects }
    ensures size { result ≡ (request_at trace.now.objects t).size }
    ensures small { result ≤ 2 ^ 48 }
{
    trace.size_of(trace.request(t))
}

/// The size of the greatest object, in bytes, and 0 if there are no requests.
pub fn greatest_size(trace: &Trace) -> u64
    ensures { result ≡ greatest_size trace.now.objects }
{
    let mut greatest = 0;
    for t in 0..trace.len() {
        greatest = greatest.max(size_at(trace, t));
    }
    greatest
}

// The number of the first capacity that is at least this distance, and how many there are if none is.
fn first_at_least(capacities: &[u64], distance: u128) -> usize
    requires ascending { IsNonDecreasing capacities.now }
    ensures within { result ≤ length capacities.now }
    ensures below { (k : ℕ) → k < result → slice_index capacities.now k < distance }
    ensures above { (k : ℕ) → result ≤ k → k < length capacities.now → distance ≤ slice_index capacities.now k }
{
    capacities.partition_point(|capacity| u128::from(*capacity) < distance)
}

// Adds a request that counts to the hits of the first capacity that is at least its distance in bytes.
fn count_request(
    trace: &Trace,
    t: u32,
    capacities: &[u64],
    warmup: u32,
    latest: &ByteSums,
    found: &mut [Hits],
)
    requires within { t < length trace.now.objects }
    requires few { length trace.now.objects ≤ 2 ^ 25 }
    requires ascending { IsNonDecreasing capacities.now }
    requires large { All (λ capacity. greatest_size trace.now.objects ≤ capacity) capacities.now }
    requires latest { latest.now ≡ bytes_at trace.now.objects t }
    requires found { AreFound trace.now.objects trace.now.fills warmup capacities.now t found.old }
    ensures found { AreFound trace.now.objects trace.now.fills warmup capacities.now (t + 1) found.new }
{
    if !trace.counts(t, warmup) {
        return;
    }
    if let Some(last) = trace.prev(t) {
        let distance = latest.sum(last, t);
        let place = first_at_least(capacities, distance);
        if place < found.len() {
            let size = size_at(trace, t);
            let bytes = u128::from(size);
            found[place] = found[place].plus(Hits { hits: 1, bytes });
        }
    }
}

// Moves the bytes of an object to its latest request.
fn move_bytes(trace: &Trace, t: u32, latest: &mut ByteSums)
    requires within { t < length trace.now.objects }
    requires latest { latest.old ≡ bytes_at trace.now.objects t }
    ensures latest { latest.new ≡ bytes_at trace.now.objects (t + 1) }
{
    let size = size_at(trace, t);
    if let Some(last) = trace.prev(t) {
        latest.set(last, 0);
    }
    latest.set(t, size);
}

// No hits, for each of that many capacities.
fn no_hits_for(alloc: Global, capacities: usize) -> Result<Vec<Hits>, NoMemory>
    ensures { IfOk result (λ found. found.items ≡ replicate capacities no_hits) }
{
    Ok(vec![in alloc; Hits { hits: 0, bytes: 0 }; capacities]?)
}

// Makes of the hits found for each capacity the sum of those up to it.
fn sum_up(found: &mut [Hits])
    requires hits { sum_by (λ h. h.hits) found.old < 2 ^ 64 }
    requires bytes { sum_by (λ h. h.bytes) found.old < 2 ^ 128 }
    ensures hits { (k : ℕ) → k < length found.old → (slice_index_or found.new k no_hits).hits ≡ hits_to found.old k }
    ensures bytes { (k : ℕ) → k < length found.old → (slice_index_or found.new k no_hits).bytes ≡ bytes_to found.old k }
{
    for k in 1..found.len() {
        found[k] = found[k].plus(found[k - 1]);
    }
}

/// LRU's hits at each of the capacities, after the first `warmup` requests. It takes 32 bytes for each request while
/// it counts, and 32 for each capacity. The time of a request is in the logarithms of both numbers.
pub fn lru_hits(
    alloc: Global,
    trace: &Trace,
    capacities: &[u64],
    warmup: u32,
) -> Result<Vec<Hits>, NoMemory>
    requires ascending { IsNonDecreasing capacities.now }
    requires large { All (λ capacity. greatest_size trace.now.objects ≤ capacity) capacities.now }
    ensures { IfOk result (λ found. AreHits trace.now.objects trace.now.fills warmup capacities.now found.items) }
{
    let mut latest = ByteSums::new(alloc, trace.len())?;
    let mut found = no_hits_for(alloc, capacities.len())?;
    for t in 0..trace.len() {
        count_request(trace, t, capacities, warmup, &latest, &mut found);
        move_bytes(trace, t, &mut latest);
    }
    sum_up(&mut found);
    Ok(found)
}
