//! The score of contents that are given by keeps.
ghost use Rattle.std.specs.Prelude.{◌≡◌, ◌↔◌, ◌≤◌, ◌<◌, ◌+◌, ◌^◌, ℕ, Bool, true, ◌&&◌, if◌then◌else◌, length, IfOk, IfErr, OnOk, IsOk};
ghost use Rattle.cache_model.specs.Keeps.{load_after, IsFirstOverfull};
ghost use Rattle.cache_model.specs.Claim.{counts, gain_of, holds, marked, score, terms_from, IsAllowed, contents_of, held_before, request_at};

use crate::trace::Trace;
use cache_model::{Object, Objective, Terms};

/// The first step whose load passes the capacity, and that load, in bytes.
#[derive(Clone, Copy, Debug, PartialEq, Eq)]
pub struct Overfull {
    pub step: u32,
    pub load: u128,
}

/// What a hit on the object gains: 1, or its size in bytes.
pub fn gain(objective: Objective, object: &Object) -> u64
    ensures { result ≡ gain_of objective object.now }
{
    match objective {
        Objective::Object => 1,
        Objective::Bytes => object.size,
    }
}

// The object of request `t`.
pub(crate) fn requested(trace: &Trace, t: u32) -> Object
    requires within { t < length trace.now.objects }
    ensures object { result ≡ request_at trace.now.objects t }
    ensures size { (1 ≤ result.size) × (result.size ≤ 2 ^ 48) }
{
    trace.object(trace.request(t))
}

// Whether the object of request `t` is held before it: the latest keep of an object is that of its request before.
pub(crate) fn is_hit(trace: &Trace, keeps: &[bool], t: u32) -> bool
    requires one_keep_each { length keeps.now ≡ length trace.now.objects }
    requires within { t < length trace.now.objects }
    ensures { result ≡ holds (held_before trace.now.objects keeps.now t) (request_at trace.now.objects t) }
{
    match trace.prev(t) {
        Some(earlier) => keeps[earlier as usize],
        None => false,
    }
}

// A load, after an object leaves it, enters it, or both.
fn moved(load: u128, size: u64, leaves: bool, enters: bool) -> u128
    requires held { leaves ≡ true → size ≤ load }
    requires room { load < 2 ^ 64 }
    ensures { result + (if leaves then size else 0) ≡ load + (if enters then size else 0) }
{
    let mut load = load;
    if leaves {
        load -= size as u128;
    }
    if enters {
        load += size as u128;
    }
    load
}

// What request `t` earns: the gain of a hit, if the request is past the warm-up and doesn't only fill.
fn earned(trace: &Trace, terms: Terms, t: u32, object: &Object, hit: bool) -> u64
    ensures { result ≡ (if counts (marked terms trace.now.fills) t && hit then gain_of terms.objective object.now else 0) }
{
    if hit && trace.counts(t, terms.warmup) {
        gain(terms.objective, object)
    } else {
        0
    }
}

/// The score of the contents that the keeps stand for, if each load is within the capacity.
///
/// It goes over the requests once, with one running load, and takes no memory.
pub fn score(
    trace: &Trace,
    capacity: u64,
    objective: Objective,
    warmup: u32,
    keeps: &[bool],
) -> Result<u128, Overfull>
    requires one_keep_each { length keeps.now ≡ length trace.now.objects }
    ensures score { IfOk result (λ gains. gains ≡ score (terms_from objective capacity warmup trace.now.fills) trace.now.objects (contents_of trace.now.objects keeps.now)) }
    ensures allowed { OnOk result (IsAllowed capacity trace.now.objects (contents_of trace.now.objects keeps.now)) }
    ensures fits { IsOk result ↔ ((t : ℕ) → t < length trace.now.objects → load_after trace.now.objects keeps.now t ≤ capacity) }
    ensures overfull { IfErr result (λ over. IsFirstOverfull capacity trace.now.objects keeps.now over.step over.load) }
{
    let terms = Terms {
        objective,
        capacity,
        warmup,
    };
    let mut gains = 0;
    let mut load = 0;
    for t in 0..trace.len() {
        let object = requested(trace, t);
        let hit = is_hit(trace, keeps, t);
        load = moved(load, object.size, hit, keeps[t as usize]);
        if load > capacity as u128 {
            return Err(Overfull { step: t, load });
        }
        gains += earned(trace, terms, t, &object, hit) as u128;
    }
    Ok(gains)
}

/// The score of contents that are known to fit. It goes over the requests once, sums no load and takes no memory.
pub fn score_of_fitting(trace: &Trace, terms: Terms, keeps: &[bool]) -> u128
    requires one_keep_each { length keeps.now ≡ length trace.now.objects }
    requires fits { (t : ℕ) → t < length trace.now.objects → load_after trace.now.objects keeps.now t ≤ terms.capacity }
    ensures score { result ≡ score (marked terms trace.now.fills) trace.now.objects (contents_of trace.now.objects keeps.now) }
    ensures allowed { IsAllowed terms.capacity trace.now.objects (contents_of trace.now.objects keeps.now) }
{
    let mut gains = 0;
    for t in 0..trace.len() {
        let object = requested(trace, t);
        let hit = is_hit(trace, keeps, t);
        gains += earned(trace, terms, t, &object, hit) as u128;
    }
    gains
}
