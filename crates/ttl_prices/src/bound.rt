//! The bound that one price gives.
ghost use Rattle.std.specs.Prelude.{◌≡◌, ◌*◌, ◌/◌, ◌≤◌, ◌<◌, ◌^◌, length, sum, IfOk};
ghost use Rattle.constant_price.specs.Constants.{constant_prices};
ghost use Rattle.ttl_prices.specs.Bounds.{bound_of_price};

use crate::requests::{Place, step_price, walk_request};
use crate::timed::TimedTrace;
use bound_base::NoMemory;
use cache_rules::Terms;
use relaxation::Scale;
use std::alloc::Global;
use ttl_sums::TtlWorths;

/// The numerator, over the denominator, of the bound that a price gives with the time to live if it is the price of every
/// step but the last.
///
/// It goes over the requests once, in constant time each on average. It takes 96 bytes for each object, and 32 for each
/// start from which a run may go on.
pub fn bound_at(
    alloc: Global,
    timed: &TimedTrace<'_>,
    terms: Terms,
    scale: Scale,
    price: u128,
) -> Result<u128, NoMemory>
    requires times { length timed.now.times.now ≡ length timed.now.trace.now.objects }
    requires price { price ≤ 2 ^ 96 }
    requires paid { scale.units * sum (constant_prices price (length timed.now.trace.now.objects)) ≤ 2 ^ 121 }
    requires units { scale.units ≡ terms.capacity / scale.unit }
    ensures bound { IfOk result (λ b.
        b ≡ bound_of_price terms scale.unit scale.denominator timed.now.trace.now timed.now.times.now timed.now.ttl price) }
    ensures small { IfOk result (λ b. b < 2 ^ 127) }
{
    let trace = timed.trace;
    let mut worths = TtlWorths::new(alloc, timed.ttl, scale.units);
    let mut clock = 0;
    let steps = trace.len();
    for t in 0..steps {
        clock = timed.times[t as usize].max(clock);
        let number = trace.request(t);
        let place = Place { t, clock, number };
        walk_request(alloc, &mut worths, trace, terms, scale, place)?;
        worths.step(step_price(steps, t, price));
    }
    Ok(worths.bound())
}
