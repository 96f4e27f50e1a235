//! The unit in which sizes are weighed.
ghost use Rattle.std.specs.Prelude.{◌≤◌, ◌^◌};
ghost use Rattle.cache_model.specs.Units.{IsUnit};
ghost use Rattle.relaxation.specs.Divisors.{IsGreatest};

use bound_base::gcd;
use cache_model::Interval;
use interval_maker::Intervals;

// The greatest common divisor of the sizes, which is 0 if there is none.
fn divisor_of(intervals: &[Interval]) -> u64
    ensures { IsGreatest intervals.now result }
{
    let mut divisor = 0;
    for interval in intervals {
        divisor = gcd(divisor, interval.size);
    }
    divisor
}

/// The greatest common divisor of the sizes of the intervals, in bytes, and 1 if there is none.
pub fn unit_of(intervals: &Intervals) -> u64
    ensures unit { IsUnit intervals.now.items result }
    ensures positive { 1 ≤ result }
    ensures most { result ≤ 2 ^ 48 }
{
    let divisor = divisor_of(intervals.as_slice());
    if divisor == 0 { 1 } else { divisor }
}
