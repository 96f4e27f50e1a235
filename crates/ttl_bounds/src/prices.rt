//! The price of all steps but the last, and the bound that it gives.
ghost use Rattle.std.specs.Prelude.{◌≡◌, ◌/◌, length, false, IfOk, IsTrue};
ghost use Rattle.cache_model.specs.Claim.{marked};
ghost use Rattle.interval_maker.specs.Timelines.{timeline_of};
ghost use Rattle.ttl_prices.specs.Bounds.{bound_of_price};
ghost use Rattle.ttl_bounds.specs.Prices.{GivesBound, IsLowPrice};

use crate::asked::TtlAsked;
use bound_base::NoMemory;
use cache_rules::Terms;
use interval_maker::Intervals;
use relaxation::Scale;
use std::alloc::Global;
use ttl_prices::{LowPrice, TimedTrace, bound_at, low_price};

// No price, and the bound without one.
fn no_price(
    alloc: Global,
    timed: &TimedTrace<'_>,
    terms: Terms,
    scale: Scale,
) -> Result<LowPrice, NoMemory>
    requires times { length timed.now.times.now ≡ length timed.now.trace.now.objects }
    requires units { scale.units ≡ terms.capacity / scale.unit }
    ensures gives { IfOk result (GivesBound terms scale.unit scale.units scale.denominator timed.now.trace.now timed.now.times.now timed.now.ttl) }
    ensures free { IfOk result (λ found. found.price ≡ 0) }
{
    let bound = bound_at(alloc, timed, terms, scale, 0)?;
    Ok(LowPrice { price: 0, bound })
}

// A price whose bound is low, sought from the least one without a time to live.
fn sought_price(
    alloc: Global,
    timed: &TimedTrace<'_>,
    terms: Terms,
    intervals: &Intervals,
    scale: Scale,
) -> Result<LowPrice, NoMemory>
    requires times { length timed.now.times.now ≡ length timed.now.trace.now.objects }
    requires intervals { intervals.now ≡ timeline_of (marked terms timed.now.trace.now.fills) timed.now.trace.now.objects }
    requires units { scale.units ≡ terms.capacity / scale.unit }
    ensures gives { IfOk result (GivesBound terms scale.unit scale.units scale.denominator timed.now.trace.now timed.now.times.now timed.now.ttl) }
    ensures low { IfOk result (λ found. IsLowPrice intervals.now scale.unit scale.units scale.denominator
        (bound_of_price terms scale.unit scale.denominator timed.now.trace.now timed.now.times.now timed.now.ttl) found.price found.bound) }
{
    let start = constant_price::least(intervals, scale.unit, scale.units, scale.denominator);
    low_price(alloc, timed, terms, scale, start)
}

/// The price that is asked for, and the bound that it gives with the time to live.
pub(crate) fn price_of(
    alloc: Global,
    asked: &TtlAsked,
    timed: &TimedTrace<'_>,
    intervals: &Intervals,
    scale: Scale,
) -> Result<LowPrice, NoMemory>
    requires times { length timed.now.times.now ≡ length timed.now.trace.now.objects }
    requires intervals { intervals.now ≡ timeline_of (marked asked.now.terms timed.now.trace.now.fills) timed.now.trace.now.objects }
    requires units { scale.units ≡ asked.now.terms.capacity / scale.unit }
    ensures gives { IfOk result (GivesBound asked.now.terms scale.unit scale.units scale.denominator timed.now.trace.now timed.now.times.now timed.now.ttl) }
    ensures free { IfOk result (λ found. IsTrue asked.now.is_free → found.price ≡ 0) }
    ensures low { IfOk result (λ found. asked.now.is_free ≡ false → IsLowPrice intervals.now scale.unit scale.units scale.denominator
        (bound_of_price asked.now.terms scale.unit scale.denominator timed.now.trace.now timed.now.times.now timed.now.ttl) found.price found.bound) }
{
    let terms = asked.terms;
    if asked.is_free {
        no_price(alloc, timed, terms, scale)
    } else {
        sought_price(alloc, timed, terms, intervals, scale)
    }
}
