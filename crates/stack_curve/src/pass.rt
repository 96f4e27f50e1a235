//! The curve of a trace whose objects have one size.
ghost use Rattle.std.specs.Prelude.{◌≡◌, ◌≤◌, ◌<◌, ◌+◌, ◌/◌, ◌^◌, ℕ, length, sum_by, replicate, IfErr, IfOk, OnOk, MatchOption, slice_index};
ghost use Rattle.cache_model.specs.Objects.{objects_of};
ghost use Rattle.stack_curve.specs.Counts.{AreCounts, AreHits, marks_at, sum_to};
ghost use Rattle.stack_curve.specs.Curves.{IsCause, IsCurve, IsFirstOther, IsOfLru, first_size, size_at};
ghost use Rattle.stack_curve.specs.Laws.{HaveSize};

use crate::marks::Marks;
use crate::points::Curve;
use bound_base::NoMemory;
use cache_rules::Trace;
use std::alloc::Global;

/// Why there is no curve.
#[derive(Clone, Copy, Debug, PartialEq, Eq)]
pub enum CurveFault {
    /// Two objects differ in size: the size of object 0, and that of the least numbered object which differs, in bytes.
    Unequal { first: u64, other: u64 },
    /// There was not enough memory.
    NoMemory,
}

impl From<NoMemory> for CurveFault {
    ghost use Rattle.std.specs.Prelude.{◌≡◌};
    ghost use Rattle.stack_curve.specs.declared.pass.CurveFault.TheVariants.{NoMemory as OutOfMemory};

    ghost from_gives = { λ _ fault. fault ≡ OutOfMemory };

    fn from(_: NoMemory) -> Self {
        CurveFault::NoMemory
    }
}

// The size of the first request, and 0 of none.
fn size_of_first(trace: &Trace) -> u64
    ensures size { result ≡ first_size trace.now.objects }
    ensures positive { 0 < length trace.now.objects → 1 ≤ result }
{
    if trace.objects() == 0 {
        0
    } else {
        trace.size_of(0)
    }
}

// The size of the first object that has not this one.
fn other_size(trace: &Trace, size: u64) -> Option<u64>
    ensures { MatchOption result ((n : ℕ) → n < length (objects_of trace.now.objects) → size_at trace.now.objects n ≡ size) (IsFirstOther trace.now.objects size) }
{
    for number in 0..trace.objects() {
        let here = trace.size_of(number);
        if here != size {
            return Some(here);
        }
    }
    None
}

// Counts the stack distance of a request, if the request counts.
fn count_distance(trace: &Trace, t: u32, marks: &Marks, counts: &mut [u32])
    requires within { t < length trace.now.objects }
    requires few { length trace.now.objects ≤ 2 ^ 25 }
    requires marked { marks.now ≡ marks_at trace.now.objects t }
    requires counted { AreCounts trace.now.objects trace.now.fills t counts.old }
    ensures counted { AreCounts trace.now.objects trace.now.fills (t + 1) counts.new }
{
    if trace.only_fills(t) {
        return;
    }
    if let Some(last) = trace.prev(t) {
        let distance = marks.count(last + 1, t) + 1;
        counts[distance as usize] += 1;
    }
}

// Moves the mark of an object to its latest request.
fn move_mark(trace: &Trace, t: u32, marks: &mut Marks)
    requires within { t < length trace.now.objects }
    requires marked { marks.old ≡ marks_at trace.now.objects t }
    ensures marked { marks.new ≡ marks_at trace.now.objects (t + 1) }
{
    if let Some(last) = trace.prev(t) {
        marks.set(last, false);
    }
    marks.set(t, true);
}

// A count of 0 for each distance up to the number of objects.
fn no_counts(alloc: Global, objects: u32) -> Result<Vec<u32>, NoMemory>
    ensures { IfOk result (λ counts. counts.items ≡ replicate (objects + 1) 0) }
{
    Ok(vec![in alloc; 0; objects as usize + 1]?)
}

// Makes of each count the sum of those up to it.
fn sum_up(counts: &mut [u32])
    requires small { sum_by (λ count. count) counts.old < 2 ^ 32 }
    ensures { (k : ℕ) → k < length counts.old → slice_index counts.new k ≡ sum_to counts.old k }
{
    for k in 1..counts.len() {
        counts[k] += counts[k - 1];
    }
}

// The hits at each number of slots up to the number of objects.
fn hits_of(alloc: Global, trace: &Trace) -> Result<Vec<u32>, NoMemory>
    ensures { IfOk result (λ hits. AreHits trace.now.objects trace.now.fills hits.items) }
{
    let mut marks = Marks::new(alloc, trace.len())?;
    let mut counts = no_counts(alloc, trace.objects())?;
    for t in 0..trace.len() {
        count_distance(trace, t, &marks, &mut counts);
        move_mark(trace, t, &mut marks);
    }
    sum_up(&mut counts);
    Ok(counts)
}

/// The curve of a trace whose objects have one size. It takes 8 bytes for each request while it counts, and 4 for each
/// object.
pub fn curve(alloc: Global, trace: &Trace) -> Result<Curve, CurveFault>
    ensures curve { IfOk result (IsCurve trace.now.objects trace.now.fills) }
    ensures one_size { OnOk result (HaveSize (first_size trace.now.objects) trace.now.objects) }
    ensures lru { IfOk result (IsOfLru trace.now.objects trace.now.fills) }
    ensures cause { IfErr result (IsCause trace.now.objects) }
{
    let size = size_of_first(trace);
    if let Some(other) = other_size(trace, size) {
        return Err(CurveFault::Unequal { first: size, other });
    }
    Ok(Curve {
        size,
        hits: hits_of(alloc, trace)?,
    })
}
