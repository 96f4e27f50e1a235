//! A number of hits that no policy can pass.
ghost use Rattle.std.specs.Prelude.{◌≤◌, ◌^◌, IfOk};
ghost use Rattle.library_uses.specs.Uses.{NoneHitsMore};

use bound_base::NoMemory;
use cache_rules::{Objective, Trace};
use capacity_curve::{CurveTerms, points_at};
use std::alloc::Global;

/// How many hits no policy passes at a capacity in bytes.
pub fn most_hits(alloc: Global, trace: &Trace, capacity: u64) -> Result<u128, NoMemory>
    requires range { (1 ≤ capacity) × (capacity ≤ 2 ^ 56) }
    ensures { IfOk result (NoneHitsMore trace.now capacity) }
{
    let asked = CurveTerms {
        objective: Objective::Object,
        denominator: 1 << 48,
        warmup: 0,
    };
    let points = points_at(alloc, trace, &[capacity], &asked)?;
    Ok(points[0].upper / u128::from(asked.denominator))
}
