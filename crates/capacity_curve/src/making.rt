//! The points of the curve at each of many capacities.
ghost use Rattle.std.specs.Prelude.{◌≡◌, ◌<◌, ◌≤◌, ◌^◌, ◌++◌, All, IfOk, OnOk, length, map};
ghost use Rattle.std.specs.List.Sorted.{IsNonDecreasing};
ghost use Rattle.policy_model.specs.declared.names.PolicyName.TheVariants.{Lru as ByRecency};
ghost use Rattle.policy_model.specs.Runs.{policy_run};
ghost use Rattle.byte_curve.specs.Sizes.{greatest_size};
ghost use Rattle.interval_maker.specs.Timelines.{timeline_of};
ghost use Rattle.capacity_curve.specs.Bounds.{IsOnePriceBound};
ghost use Rattle.capacity_curve.specs.Points.{ArePoints, IsInRange, IsPoint, terms_at};

use crate::bounds::one_price;
use crate::points::{CurveTerms, Point};
use bound_base::NoMemory;
use byte_curve::{Hits, greatest_size, lru_hits};
use cache_rules::Trace;
use relaxation::unit_of;
use replay_core::{Replay, replay};
use replay_recency::Lru;
use std::alloc::Global;

// LRU's hits at a capacity.
fn replay_at(alloc: Global, trace: &Trace, capacity: u64, warmup: u32) -> Result<Replay, NoMemory>
    requires range { (1 ≤ capacity) × (capacity ≤ 2 ^ 56) }
    ensures hits { IfOk result (λ r. r.hits ≡ (policy_run ByRecency trace.now.objects capacity warmup trace.now.fills).hits) }
    ensures bytes { IfOk result (λ r. r.bytes ≡ (policy_run ByRecency trace.now.objects capacity warmup trace.now.fills).bytes) }
{
    let mut lru = Lru::new(alloc, capacity, trace.objects())?;
    replay(alloc, trace, warmup, &mut lru)
}

// The bound at a capacity, whose intervals are made for it alone.
fn upper_at(
    alloc: Global,
    trace: &Trace,
    capacity: u64,
    asked: &CurveTerms,
) -> Result<u128, NoMemory>
    requires denominator { asked.now.denominator ≤ 2 ^ 48 }
    ensures { IfOk result (IsOnePriceBound (timeline_of (terms_at asked.now capacity trace.now.fills) trace.now.objects) capacity asked.now.denominator) }
{
    let intervals = interval_maker::make(alloc, trace, capacity, asked.objective, asked.warmup)?;
    let unit = unit_of(&intervals);
    let found = one_price(alloc, &intervals, unit, capacity, asked.denominator, 0)?;
    Ok(found.upper)
}

// The point at a capacity that some object may be larger than.
fn point_by_replay(
    alloc: Global,
    trace: &Trace,
    capacity: u64,
    asked: &CurveTerms,
) -> Result<Point, NoMemory>
    requires range { (1 ≤ capacity) × (capacity ≤ 2 ^ 56) }
    requires denominator { (1 ≤ asked.now.denominator) × (asked.now.denominator ≤ 2 ^ 48) }
    ensures capacity { IfOk result (λ point. point.capacity ≡ capacity) }
    ensures point { IfOk result (IsPoint asked.now trace.now) }
{
    let replay = replay_at(alloc, trace, capacity, asked.warmup)?;
    let upper = upper_at(alloc, trace, capacity, asked)?;
    Ok(Point {
        capacity,
        hits: replay.hits,
        bytes: replay.bytes,
        upper,
    })
}

// Appends the points at capacities that no object is larger than. The intervals at the first of them are those at each.
fn push_by_distances(
    alloc: Global,
    trace: &Trace,
    capacities: &[u64],
    asked: &CurveTerms,
    points: &mut Vec<Point>,
) -> Result<(), NoMemory>
    requires some { 0 < length capacities.now }
    requires ascending { IsNonDecreasing capacities.now }
    requires range { All IsInRange capacities.now }
    requires large { All (λ capacity. greatest_size trace.now.objects ≤ capacity) capacities.now }
    requires denominator { (1 ≤ asked.now.denominator) × (asked.now.denominator ≤ 2 ^ 48) }
    requires points { All (IsPoint asked.now trace.now) points.old.items }
    ensures at { OnOk result (map (λ point. point.capacity) points.new.items ≡ map (λ point. point.capacity) points.old.items ++ capacities.now) }
    ensures points { OnOk result (All (IsPoint asked.now trace.now) points.new.items) }
{
    let found = lru_hits(alloc, trace, capacities, asked.warmup)?;
    let first = capacities[0];
    let intervals = interval_maker::make(alloc, trace, first, asked.objective, asked.warmup)?;
    let unit = unit_of(&intervals);
    let mut start = 0;
    for (k, capacity) in capacities.iter().enumerate() {
        let bound = one_price(alloc, &intervals, unit, *capacity, asked.denominator, start)?;
        let Hits { hits, bytes } = found[k];
        points.push(Point {
            capacity: *capacity,
            hits,
            bytes,
            upper: bound.upper,
        })?;
        start = bound.price;
    }
    Ok(())
}

// The points at capacities that some object may be larger than.
fn points_by_replay(
    alloc: Global,
    trace: &Trace,
    capacities: &[u64],
    asked: &CurveTerms,
) -> Result<Vec<Point>, NoMemory>
    requires range { All IsInRange capacities.now }
    requires denominator { (1 ≤ asked.now.denominator) × (asked.now.denominator ≤ 2 ^ 48) }
    ensures { IfOk result (λ points. ArePoints asked.now trace.now capacities.now points.items) }
{
    let mut points = Vec::new(alloc);
    for capacity in capacities {
        points.push(point_by_replay(alloc, trace, *capacity, asked)?)?;
    }
    Ok(points)
}

/// What is known at each of the capacities, which ascend. From the size of the greatest object on, one pass over the
/// requests gives LRU's hits, and the intervals are made once; each capacity below it takes a replay and intervals of
/// its own. It takes 32 bytes a request while it counts hits; then 8 a request, 24 an interval, and as much for each
/// interval that decides near the least price.
pub fn points_at(
    alloc: Global,
    trace: &Trace,
    capacities: &[u64],
    asked: &CurveTerms,
) -> Result<Vec<Point>, NoMemory>
    requires ascending { IsNonDecreasing capacities.now }
    requires range { All IsInRange capacities.now }
    requires denominator { (1 ≤ asked.now.denominator) × (asked.now.denominator ≤ 2 ^ 48) }
    ensures { IfOk result (λ points. ArePoints asked.now trace.now capacities.now points.items) }
{
    let most = greatest_size(trace);
    let small = capacities.partition_point(|capacity| *capacity < most);
    let (below, from) = capacities.split_at(small);
    let mut points = points_by_replay(alloc, trace, below, asked)?;
    if !from.is_empty() {
        push_by_distances(alloc, trace, from, asked, &mut points)?;
    }
    Ok(points)
}
