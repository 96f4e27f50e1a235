//! The bound of the best single price at a capacity.
ghost use Rattle.std.specs.Prelude.{◌≤◌, ◌^◌, IfOk};
ghost use Rattle.cache_model.specs.Units.{IsUnit};
ghost use Rattle.capacity_curve.specs.Bounds.{IsOnePriceBound};

use bound_base::NoMemory;
use constant_price::{bound_at, least_from};
use interval_maker::Intervals;
use std::alloc::Global;

/// A price, and the numerator of the bound that it gives.
#[derive(Clone, Copy)]
pub(crate) struct OnePrice {
    pub(crate) price: u128,
    pub(crate) upper: u128,
}

/// The bound of the best single price at a capacity, whatever the price from which it is sought.
pub(crate) fn one_price(
    alloc: Global,
    intervals: &Intervals,
    unit: u64,
    capacity: u64,
    denominator: u64,
    start: u128,
) -> Result<OnePrice, NoMemory>
    requires unit { IsUnit intervals.now.items unit }
    requires positive { 1 ≤ unit }
    requires denominator { denominator ≤ 2 ^ 48 }
    ensures { IfOk result (λ found. IsOnePriceBound intervals.now capacity denominator found.upper) }
{
    let units = capacity / unit;
    let price = least_from(alloc, intervals, unit, units, denominator, start)?;
    Ok(OnePrice {
        price,
        upper: bound_at(intervals, unit, units, denominator, price),
    })
}
