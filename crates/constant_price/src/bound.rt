//! The bound that one price gives.
ghost use Rattle.std.specs.Prelude.{◌≡◌, ◌≤◌, ◌<◌, ◌^◌, ◌*◌, sum};
ghost use Rattle.constant_price.specs.Constants.{constant_bound, constant_prices};

use crate::tangents::tangent_at;
use interval_maker::Intervals;

/// The numerator, over the denominator, of the bound that a price gives if it is the price of every step but the last.
/// It takes one pass over the intervals, and no memory.
pub fn bound_at(intervals: &Intervals, unit: u64, units: u64, denominator: u64, price: u128) -> u128
    requires unit { 1 ≤ unit }
    requires denominator { denominator ≤ 2 ^ 48 }
    requires price { price ≤ 2 ^ 96 }
    requires paid { units * sum (constant_prices price intervals.now.steps) ≤ 2 ^ 121 }
    ensures bound { result ≡ constant_bound intervals.now unit units denominator price }
    ensures small { result < 2 ^ 127 }
{
    let steps = u128::from(intervals.steps().saturating_sub(1));
    let tangent = tangent_at(intervals.as_slice(), unit, denominator, price);
    u128::from(units) * (steps * price) + tangent.surplus
}
