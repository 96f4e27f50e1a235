//! The instance of intervals, with an arc for each.
ghost use Rattle.std.specs.Prelude.{◌≡◌, ◌≤◌, ◌^◌, All, IfOk};
ghost use Prim.Native.Nat.{◌∣◌};
ghost use Rattle.cache_model.specs.Units.{weight};
ghost use Rattle.flow_model.specs.Instances.{arc_of, whole_instance};

use bound_base::{NoMemory, ceil_div};
use cache_model::Interval;
use flow_model::{Instance, OuterArc};
use interval_maker::Intervals;
use std::alloc::Global;

// The arc of an interval, whose cost is the gain of a unit of its weight over the denominator, rounded up.
fn arc_of(interval: &Interval, unit: u64, denominator: u64) -> OuterArc
    requires unit { 1 ≤ unit }
    requires weight { 1 ≤ weight unit interval.now }
    ensures { result ≡ arc_of unit denominator interval.now }
{
    let weight = interval.size / unit;
    let worth = denominator as u128 * interval.gain as u128;
    OuterArc {
        start: interval.start,
        end: interval.end,
        weight,
        cost: ceil_div(worth, weight as u128),
    }
}

/// The instance of the intervals over the steps of their trace, with room for this many units. The arcs stand in the
/// order of the intervals. Weights are sizes in units of `unit` bytes, and costs are over the denominator.
/// It takes one pass, and 32 bytes for each interval.
pub fn instance(
    alloc: Global,
    intervals: &Intervals,
    unit: u64,
    units: u64,
    denominator: u64,
) -> Result<Instance, NoMemory>
    requires unit { 1 ≤ unit }
    requires divides { All (λ i. unit ∣ i.size) intervals.now.items }
    requires units { (1 ≤ units) × (units ≤ 2 ^ 56) }
    requires denominator { (1 ≤ denominator) × (denominator ≤ 2 ^ 48) }
    ensures { IfOk result (λ i. i ≡ whole_instance intervals.now.items intervals.now.steps unit units denominator) }
{
    let items = intervals.as_slice();
    let mut arcs = Vec::with_capacity(alloc, items.len())?;
    for interval in items {
        arcs.push_reserved(arc_of(interval, unit, denominator));
    }
    Ok(Instance::new(intervals.steps(), units, arcs))
}
