//! The requests of a trace, as the bound walks them.
ghost use Rattle.std.specs.Prelude.{◌≡◌, ℕ, ◌+◌, ◌*◌, ◌/◌, ◌≤◌, ◌<◌, ◌^◌, if◌then◌else◌, List, length, slice_index_or, OnOk};
ghost use Rattle.cache_model.specs.Claim.{counts, gain_of, marked, request_at};
ghost use Rattle.constant_price.specs.Constants.{constant_prices};
ghost use Rattle.freshness.specs.Stale.{clock};
ghost use Rattle.ttl_sums.specs.Walked.{HasWalked, IsNumberAt};
ghost use Rattle.ttl_sums.specs.Worths.{most};
ghost use Rattle.ttl_prices.specs.Bounds.{priced};

use bound_base::NoMemory;
use cache_rules::{Object, Terms, Trace, gain};
use relaxation::Scale;
use std::alloc::Global;
use ttl_sums::{Request, TtlWorths};

/// Where a request stands in a trace, the clock there, and the number that its object has among those that are walked.
#[derive(Clone, Copy)]
pub(crate) struct Place {
    pub(crate) t: u32,
    pub(crate) clock: u64,
    pub(crate) number: u32,
}

/// The price on step `t`, if it is this one on all steps but the last, and 0 on that.
pub(crate) fn step_price(steps: u32, t: u32, price: u128) -> u128
    requires { t < steps }
    ensures { result ≡ slice_index_or (constant_prices price steps) t 0 }
{
    if t + 1 < steps { price } else { 0 }
}

// The object of request `t`.
fn requested(trace: &Trace, t: u32) -> Object
    requires within { t < length trace.now.objects }
    ensures object { result ≡ request_at trace.now.objects t }
    ensures size { (1 ≤ result.size) × (result.size ≤ 2 ^ 48) }
{
    trace.object(trace.request(t))
}

// What a hit at request `t` gains over the denominator, if it counts.
fn gain_at(trace: &Trace, terms: Terms, denominator: u64, t: u32, object: &Object) -> u128
    requires denominator { denominator ≤ 2 ^ 48 }
    requires size { (1 ≤ object.now.size) × (object.now.size ≤ 2 ^ 48) }
    ensures gain { result ≡ (if counts (marked terms trace.now.fills) t then denominator * gain_of terms.objective object.now else 0) }
    ensures most { result ≤ 2 ^ 96 }
{
    if trace.counts(t, terms.warmup) {
        u128::from(denominator) * u128::from(gain(terms.objective, object))
    } else {
        0
    }
}

/// Walks the request that stands there, or passes it if its object is above the capacity.
pub(crate) fn walk_request(
    alloc: Global,
    worths: &mut TtlWorths,
    trace: &Trace,
    terms: Terms,
    scale: Scale,
    place: Place,
) -> Result<(), NoMemory>
    requires within { place.t < length trace.now.objects }
    requires number { place.number ≤ length worths.old.objects }
    requires clock { worths.old.clock ≤ place.clock }
    requires units { worths.old.units ≡ terms.capacity / scale.unit }
    requires room { worths.old.gains + 2 ^ 96 < most }
    ensures units { worths.new.units ≡ worths.old.units }
    ensures prices { worths.new.prices ≡ worths.old.prices }
    ensures clock { OnOk result (worths.new.clock ≤ place.clock) }
    ensures gains { OnOk result (worths.new.gains ≤ worths.old.gains + 2 ^ 96) }
    ensures walked { OnOk result ((times prices : List ℕ) (ttl : ℕ)
        → let p = priced terms scale.unit scale.denominator trace.now times prices ttl in
        IsNumberAt p place.t place.number → place.clock ≡ clock times place.t
        → HasWalked p place.t place.t worths.old → HasWalked p (place.t + 1) place.t worths.new) }
{
    let object = requested(trace, place.t);
    if object.size > terms.capacity {
        return worths.skip(alloc, place.number);
    }
    let request = Request {
        number: place.number,
        clock: place.clock,
        fills: trace.only_fills(place.t),
        weight: object.size / scale.unit,
        gain: gain_at(trace, terms, scale.denominator, place.t, &object),
    };
    worths.request(alloc, &request)
}
