//! A guess at a low price, from a part of the objects.
ghost use Rattle.std.specs.Prelude.{◌≡◌, ◌*◌, ◌/◌, ◌+◌, ◌<◌, ◌≤◌, ◌^◌, length, sum, IfOk, OnOk};
ghost use Rattle.constant_price.specs.Constants.{constant_prices};
ghost use Rattle.ttl_sums.specs.Worths.{most};

use crate::requests::{Place, step_price, walk_request};
use crate::search::{LowPrice, Search};
use crate::timed::TimedTrace;
use bound_base::NoMemory;
use cache_rules::{Terms, Trace};
use relaxation::Scale;
use std::alloc::Global;
use ttl_sums::TtlWorths;

// One of this many objects is in the sample, and it pays this part of the prices.
const PARTS: u32 = 32;

// At most this many prices are tried on the sample.
const TURNS: u8 = 12;

// Walks the request that stands there if its object is in the sample, by its number among those.
fn walk_sampled(
    alloc: Global,
    worths: &mut TtlWorths,
    trace: &Trace,
    terms: Terms,
    scale: Scale,
    place: Place,
) -> Result<(), NoMemory>
    requires within { place.t < length trace.now.objects }
    requires clock { worths.old.clock ≤ place.clock }
    requires units { worths.old.units ≡ terms.capacity / scale.unit }
    requires room { worths.old.gains + 2 ^ 96 < most }
    ensures units { worths.new.units ≡ worths.old.units }
    ensures prices { worths.new.prices ≡ worths.old.prices }
    ensures clock { OnOk result (worths.new.clock ≤ place.clock) }
    ensures gains { OnOk result (worths.new.gains ≤ worths.old.gains + 2 ^ 96) }
{
    let number = place.number / PARTS;
    // The second test is for the proof: the number is never above.
    if place.number % PARTS != 0 || number as usize > worths.objects() {
        return Ok(());
    }
    let Place { t, clock, .. } = place;
    walk_request(
        alloc,
        worths,
        trace,
        terms,
        scale,
        Place { t, clock, number },
    )
}

// About the bound that a price gives of the sample. It passes over the requests of other objects.
fn sampled_bound(
    alloc: Global,
    timed: &TimedTrace<'_>,
    terms: Terms,
    scale: Scale,
    price: u128,
) -> Result<u128, NoMemory>
    requires times { length timed.now.times.now ≡ length timed.now.trace.now.objects }
    requires paid { scale.units * sum (constant_prices price (length timed.now.trace.now.objects)) ≤ 2 ^ 121 }
    requires units { scale.units ≡ terms.capacity / scale.unit }
{
    let trace = timed.trace;
    let mut worths = TtlWorths::new(alloc, timed.ttl, scale.units);
    let mut clock = 0;
    let steps = trace.len();
    for t in 0..steps {
        clock = timed.times[t as usize].max(clock);
        let number = trace.request(t);
        let place = Place { t, clock, number };
        walk_sampled(alloc, &mut worths, trace, terms, scale, place)?;
        worths.step(step_price(steps, t, price));
    }
    let paid = u128::from(scale.units) * worths.prices();
    Ok(
        worths
            .bound()
            .saturating_sub(paid - paid / u128::from(PARTS)),
    )
}

// A price, and about the bound that it gives of the sample.
fn try_sampled(
    alloc: Global,
    timed: &TimedTrace<'_>,
    terms: Terms,
    scale: Scale,
    price: u128,
) -> Result<LowPrice, NoMemory>
    requires times { length timed.now.times.now ≡ length timed.now.trace.now.objects }
    requires paid { scale.units * sum (constant_prices price (length timed.now.trace.now.objects)) ≤ 2 ^ 121 }
    requires units { scale.units ≡ terms.capacity / scale.unit }
    ensures { IfOk result (λ tried. tried.price ≡ price) }
{
    let bound = sampled_bound(alloc, timed, terms, scale, price)?;
    Ok(LowPrice { price, bound })
}

/// A price at which the bound of a sample of the objects is low, and no greater than the start.
pub(crate) fn guess_from(
    alloc: Global,
    timed: &TimedTrace<'_>,
    terms: Terms,
    scale: Scale,
    start: u128,
) -> Result<u128, NoMemory>
    requires times { length timed.now.times.now ≡ length timed.now.trace.now.objects }
    requires paid { scale.units * sum (constant_prices start (length timed.now.trace.now.objects)) ≤ 2 ^ 121 }
    requires units { scale.units ≡ terms.capacity / scale.unit }
    ensures { IfOk result (λ guess. guess ≤ start) }
{
    let mut search = Search::new(try_sampled(alloc, timed, terms, scale, start)?);
    for _turn in 0..TURNS {
        let Some(price) = search.next(u128::MAX) else {
            return Ok(search.lowest.price);
        };
        search = search.with(try_sampled(alloc, timed, terms, scale, price)?);
    }
    Ok(search.lowest.price)
}
