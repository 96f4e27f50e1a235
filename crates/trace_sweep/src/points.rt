//! The bounds at each capacity.
ghost use Rattle.std.specs.Prelude.{◌≡◌, IfOk};
ghost use Rattle.trace_sweep.specs.Points.{points_of};

use area_sums::CapacityBounds;
use bound_base::NoMemory;
use std::alloc::Global;

/// The bounds at a capacity, in bytes.
#[derive(Clone, Copy, Debug, PartialEq, Eq)]
pub struct SweepPoint {
    pub capacity: u64,
    pub bounds: CapacityBounds,
}

/// The capacities with their bounds.
pub(crate) fn points_of(
    alloc: Global,
    capacities: &[u64],
    bounds: &[CapacityBounds],
) -> Result<Vec<SweepPoint>, NoMemory>
    ensures { IfOk result (λ points. points.items ≡ points_of capacities.now bounds.now) }
{
    Ok(
        capacities
            .iter()
            .zip(bounds)
            .map(|(capacity, bounds)| SweepPoint {
                capacity: *capacity,
                bounds: *bounds,
            })
            .collect(alloc)?,
    )
}
