//! The surplus of all intervals at one price, and how it falls.
ghost use Rattle.std.specs.Prelude.{◌≡◌, ℕ, ◌+◌, ◌-◌, ◌<◌, ◌≤◌, ◌^◌, ◌*◌, ◌/◌, min, length, All};
ghost use Rattle.interval_maker.specs.Timelines.{IsInterval};
ghost use Rattle.constant_price.specs.Surpluses.{fall_at, fall_of, surplus_at, surplus_of};

use cache_model::Interval;

/// No gain over the denominator passes this, so at this price no interval has a surplus that falls.
pub(crate) const TOP_PRICE: u128 = 1 << 96;

/// A line that touches the surplus of all intervals at a price, and goes down to the one at the next.
#[derive(Clone, Copy)]
pub(crate) struct Tangent {
    pub(crate) price: u128,
    pub(crate) surplus: u128,
    pub(crate) fall: u128,
}

// The size in units. If the unit is 1, as in most traces, a division would take longer than all the rest.
fn weight_of(size: u64, unit: u64) -> u64
    requires { 1 ≤ unit }
    ensures { result ≡ size / unit }
{
    if unit == 1 { size } else { size / unit }
}

/// The greatest charge that a price takes no further than the greatest price: what pays more passes any gain.
pub(crate) fn most_charge(price: u128) -> u128
    ensures most { result * price ≤ TOP_PRICE }
    ensures more { (n : ℕ) → result < n → n < TOP_PRICE → TOP_PRICE ≤ n * price }
{
    TOP_PRICE / price.max(1)
}

/// The surplus of an interval, and how much of it the next price takes away. What pays more than `most` at price 1
/// pays more than any gain.
pub(crate) fn surplus_and_fall(
    interval: &Interval,
    unit: u64,
    denominator: u64,
    price: u128,
    most: u128,
) -> (u128, u128)
    requires interval { IsInterval (2 ^ 25) interval.now }
    requires unit { 1 ≤ unit }
    requires denominator { denominator ≤ 2 ^ 48 }
    requires most { most * price ≤ TOP_PRICE }
    requires more { (n : ℕ) → most < n → n < TOP_PRICE → TOP_PRICE ≤ n * price }
    ensures surplus { result.0 ≡ surplus_at unit denominator price interval.now }
    ensures fall { result.1 ≡ fall_at unit denominator price interval.now }
{
    let charge = u128::from(weight_of(interval.size, unit))
        * u128::from(interval.end - interval.start);
    if charge > most {
        return (0, 0);
    }
    let gain = u128::from(denominator) * u128::from(interval.gain);
    let surplus = gain.saturating_sub(charge * price);
    (surplus, surplus.min(charge))
}

/// The tangent at a price. Goes over the intervals once.
pub(crate) fn tangent_at(
    intervals: &[Interval],
    unit: u64,
    denominator: u64,
    price: u128,
) -> Tangent
    requires few { length intervals.now ≤ 2 ^ 25 }
    requires intervals { All (IsInterval (2 ^ 25)) intervals.now }
    requires unit { 1 ≤ unit }
    requires denominator { denominator ≤ 2 ^ 48 }
    requires price { price ≤ TOP_PRICE }
    ensures price { result.price ≡ price }
    ensures surplus { result.surplus ≡ surplus_of unit denominator price intervals.now }
    ensures fall { result.fall ≡ fall_of unit denominator price intervals.now }
{
    let most = most_charge(price);
    let mut surplus = 0;
    let mut fall = 0;
    for interval in intervals {
        let (left, next) = surplus_and_fall(interval, unit, denominator, price, most);
        surplus += left;
        fall += next;
    }
    Tangent {
        price,
        surplus,
        fall,
    }
}

/// The price at which two tangents meet, rounded down.
pub(crate) fn meeting(low: Tangent, high: Tangent) -> u128
    requires order { low.price ≤ high.price }
    requires steeper { high.fall < low.fall }
    ensures { result
        ≡ min (low.price + (low.surplus - high.surplus - high.fall * (high.price - low.price)) / (low.fall - high.fall)) (2 ^ 128 - 1) }
{
    let width = high.price - low.price;
    let below = low
        .surplus
        .saturating_sub(high.surplus)
        .saturating_sub(high.fall.saturating_mul(width));
    low.price.saturating_add(below / (low.fall - high.fall))
}
