//! What one more request and its record change.
ghost use Rattle.std.specs.Prelude.{◌≡◌, nat_le, not, ◌&&◌, true, ◌≤◌, ◌<◌, ◌+◌, ◌-◌, ◌*◌, ◌/◌, ◌^◌, IfSome, if◌then◌else◌};
ghost use Rattle.cache_model.specs.Certificates.{IsHeaderInRange};
ghost use Rattle.cache_model.specs.Claim.{gain_of};
ghost use Rattle.cert_checker.specs.Rules.{weight_in};
ghost use Rattle.cert_checker.specs.Steps.{added, added_by, added_if, AreNext, flow_before, seen_at, size_before, sums_after, unused_flow};
ghost use Rattle.cert_checker.specs.Summaries.{AreSmall};

use crate::rules::{Figures, worth};
use crate::summary::{Added, Seen, Sums};
use cache_model::Object;
use cache_rules::gain;
use cert_format::{Header, Record};

// The size of the object if it is kept, and else 0.
fn kept_size(object: &Object, keep: bool) -> u64
    ensures { result ≡ (if keep then object.now.size else 0) }
{
    if keep { object.size } else { 0 }
}

// What the object has in the load, and its flow in the load of the flows.
fn shares(object: &Object, before: Option<Seen>) -> (u64, u64)
    ensures size { result.0 ≡ size_before object.now before }
    ensures flow { result.1 ≡ flow_before before }
{
    match before {
        Some(seen) => (kept_size(object, seen.keep), seen.flow),
        None => (0, 0),
    }
}

// The request before this one of its object, if it has a flow and this one doesn't count.
fn unused(counts: bool, before: Option<Seen>) -> Option<u32>
    ensures { result ≡ unused_flow counts before }
{
    match before {
        Some(seen) if !counts && seen.flow > 0 => Some(seen.latest),
        _ => None,
    }
}

/// Whether the next request counts: it is past the warm-up, and doesn't only fill the cache.
pub(crate) fn counts(header: &Header, sums: &Sums, only: bool) -> bool
    ensures { result ≡ (nat_le header.now.warmup sums.now.steps && not only) }
{
    sums.steps >= header.warmup && !only
}

/// The figures after a request of the object, which counts or not, and its record, if this is what was kept of the
/// object.
pub(crate) fn figures(
    header: &Header,
    counts: bool,
    sums: &Sums,
    object: &Object,
    entry: &Record,
    before: Option<Seen>,
) -> Figures
    requires steps { sums.now.steps < 2 ^ 25 }
    requires prices { sums.now.prices + entry.now.price < 2 ^ 128 }
    requires load { sums.now.load + object.now.size < 2 ^ 64 }
    requires flows { sums.now.flows + entry.now.flow < 2 ^ 64 }
    requires in_load { size_before object.now before ≤ sums.now.load }
    requires in_flows { flow_before before ≤ sums.now.flows }
    ensures { AreNext header.now counts sums.now object.now entry.now before result }
{
    let (size, flow) = shares(object, before);
    Figures {
        prices: sums.prices + entry.price,
        last: sums.steps + 1 == header.requests,
        counts: before.is_some() && counts,
        unused: unused(counts, before),
        load: sums.load - size + kept_size(object, entry.keep),
        flows: sums.flows - flow + entry.flow,
    }
}

// What no interval adds.
const NOTHING_ADDED: Added = Added {
    surplus: 0,
    value: 0,
    gain: 0,
};

// What is above the price of the weight, and 0 if nothing is.
fn surplus(worth: u128, weight: u64, price: u128) -> u128
    ensures value { result ≡ worth - weight * price }
{
    match (weight as u128).checked_mul(price) {
        Some(paid) => worth.saturating_sub(paid),
        None => 0,
    }
}

// The value of a flow, which is at most the weight. If there is none, nothing is divided.
fn flow_value(worth: u128, weight: u64, flow: u64) -> u128
    requires weight { 1 ≤ weight }
    requires flow { flow ≤ weight }
    ensures { result ≡ worth / weight * flow }
{
    if flow == 0 {
        0
    } else {
        worth / weight as u128 * flow as u128
    }
}

// What the interval that ends at a request of the object gains.
fn kept_gain(header: &Header, object: &Object, keep: bool) -> u64
    ensures { result ≡ (if keep then gain_of header.now.objective object.now else 0) }
{
    if keep {
        gain(header.objective, object)
    } else {
        0
    }
}

// What the interval that ends at a request of the object adds, if the prices before that have this sum.
fn added_by_interval(header: &Header, object: &Object, prices: u128, seen: &Seen) -> Added
    requires header { IsHeaderInRange header.now }
    requires size { object.now.size ≤ 2 ^ 48 }
    requires prices { seen.now.price_before ≤ prices }
    requires flow { seen.now.flow ≤ weight_in header.now object.now }
    requires weight { object.now.size ≤ header.now.capacity → 1 ≤ object.now.size / header.now.unit }
    ensures { result ≡ added_by header.now object.now prices seen.now }
{
    let gain = kept_gain(header, object, seen.keep);
    if object.size > header.capacity {
        return Added {
            surplus: 0,
            value: 0,
            gain,
        };
    }
    let worth = worth(header, object);
    let weight = object.size / header.unit;
    Added {
        surplus: surplus(worth, weight, prices - seen.price_before),
        value: flow_value(worth, weight, seen.flow),
        gain,
    }
}

// What a later request of the object adds, if it counts.
fn added_by_hit(header: &Header, counts: bool, object: &Object, prices: u128, seen: &Seen) -> Added
    requires header { IsHeaderInRange header.now }
    requires size { object.now.size ≤ 2 ^ 48 }
    requires prices { seen.now.price_before ≤ prices }
    requires flow { seen.now.flow ≤ weight_in header.now object.now }
    requires weight { counts ≡ true → object.now.size ≤ header.now.capacity → 1 ≤ object.now.size / header.now.unit }
    ensures sums { result ≡ added_if counts (added_by header.now object.now prices seen.now) }
    ensures small { (result.surplus ≤ 2 ^ 96) × (result.value ≤ 2 ^ 96) × (result.gain ≤ 2 ^ 48) }
{
    if counts {
        added_by_interval(header, object, prices, seen)
    } else {
        NOTHING_ADDED
    }
}

/// What a request of the object adds, if this is what was kept of the object: nothing if it doesn't count. The prices
/// before it have this sum.
pub(crate) fn added(
    header: &Header,
    counts: bool,
    object: &Object,
    prices: u128,
    before: Option<Seen>,
) -> Added
    requires header { IsHeaderInRange header.now }
    requires size { object.now.size ≤ 2 ^ 48 }
    requires prices { IfSome before (λ seen. seen.price_before ≤ prices) }
    requires flow { IfSome before (λ seen. seen.flow ≤ weight_in header.now object.now) }
    requires weight { counts ≡ true
        → IfSome before (λ seen. object.now.size ≤ header.now.capacity → 1 ≤ object.now.size / header.now.unit) }
    ensures sums { result ≡ added header.now counts object.now prices before }
    ensures small { (result.surplus ≤ 2 ^ 96) × (result.value ≤ 2 ^ 96) × (result.gain ≤ 2 ^ 48) }
{
    match before {
        Some(seen) => added_by_hit(header, counts, object, prices, &seen),
        None => NOTHING_ADDED,
    }
}

/// The sums after a request.
pub(crate) fn sums_with(sums: &Sums, now: &Figures, added: &Added) -> Sums
    requires steps { sums.now.steps < 2 ^ 25 }
    requires small { AreSmall sums.now }
    requires added { (added.now.surplus ≤ 2 ^ 96) × (added.now.value ≤ 2 ^ 96) × (added.now.gain ≤ 2 ^ 48) }
    ensures sums { result ≡ sums_after sums.now now.now added.now }
    ensures small { AreSmall result }
{
    Sums {
        steps: sums.steps + 1,
        prices: now.prices,
        load: now.load,
        flows: now.flows,
        surpluses: sums.surpluses + added.surplus,
        values: sums.values + added.value,
        score: sums.score + added.gain as u128,
    }
}

/// What is kept of the object of a request with this record, if these are the sums before it.
pub(crate) fn seen_of(sums: &Sums, entry: &Record) -> Seen
    ensures { result ≡ seen_at sums.now entry.now }
{
    Seen {
        latest: sums.steps,
        price_before: sums.prices,
        keep: entry.keep,
        flow: entry.flow,
    }
}
