//! The search for the least price.
ghost use Rattle.std.specs.Prelude.{◌≡◌, ℕ, ◌<◌, ◌≤◌, ◌^◌, ◌*◌, ◌+◌, length, sum, All, IfOk};
ghost use Rattle.interval_maker.specs.Timelines.{IsInterval};
ghost use Rattle.constant_price.specs.Constants.{IsLeastConstant, constant_prices};
ghost use Rattle.constant_price.specs.Surpluses.{fall_of};

use crate::near::least_near;
use crate::tangents::{TOP_PRICE, Tangent, meeting, tangent_at};
use bound_base::NoMemory;
use cache_model::Interval;
use interval_maker::Intervals;
use std::alloc::Global;

// The part that is searched first is one of this many: the intervals from the middle of the list on.
const PARTS: usize = 64;

// Every eighth turn looks in the middle, so that the number of turns is bounded by the width alone.
const MIDDLE_TURNS: u8 = 8;

// A price between the two: first the guess, then one beyond it, and then where the tangents meet. Those of the bound
// meet at the same price as those of the surplus, and the bound is least near there.
fn price_between(low: Tangent, high: Tangent, guess: u128, turn: u8) -> u128
    requires order { low.price + 1 < high.price }
    requires steeper { high.fall < low.fall }
    ensures above { low.price < result }
    ensures below { result < high.price }
{
    let aim = match turn {
        0 => guess,
        1 if low.price == guess => guess.saturating_add(guess / 8),
        1 => guess - guess / 8,
        _ if turn % MIDDLE_TURNS == 0 => low.price + (high.price - low.price) / 2,
        _ => meeting(low, high),
    };
    aim.clamp(low.price + 1, high.price - 1)
}

/// The least price from which the surplus falls by no more than the growth, whatever the guess. The fall passes the
/// growth at the low price, and is within it at the high one.
pub(crate) fn least_within(
    intervals: &[Interval],
    unit: u64,
    denominator: u64,
    growth: u128,
    guess: u128,
) -> u128
    requires few { length intervals.now ≤ 2 ^ 25 }
    requires intervals { All (IsInterval (2 ^ 25)) intervals.now }
    requires unit { 1 ≤ unit }
    requires denominator { denominator ≤ 2 ^ 48 }
    ensures price { result ≤ TOP_PRICE }
    ensures within { fall_of unit denominator result intervals.now ≤ growth }
    ensures first { (q : ℕ) → q + 1 ≡ result → growth < fall_of unit denominator q intervals.now }
{
    let mut low = tangent_at(intervals, unit, denominator, 0);
    if low.fall <= growth {
        return 0;
    }
    let mut high = Tangent {
        price: TOP_PRICE,
        surplus: 0,
        fall: 0,
    };
    let mut turn: u8 = 0;
    'search: while high.price - low.price > 1 {
        let price = price_between(low, high, guess, turn);
        let tangent = tangent_at(intervals, unit, denominator, price);
        if tangent.fall <= growth {
            high = tangent;
        } else {
            low = tangent;
        }
        turn = turn.wrapping_add(1);
    }
    high.price
}

// A guess at the least price of all, which is that of a part of the intervals, sought from a price.
fn guess_from(
    intervals: &[Interval],
    unit: u64,
    denominator: u64,
    growth: u128,
    start: u128,
) -> u128
    requires few { length intervals.now ≤ 2 ^ 25 }
    requires intervals { All (IsInterval (2 ^ 25)) intervals.now }
    requires unit { 1 ≤ unit }
    requires denominator { denominator ≤ 2 ^ 48 }
{
    let middle = intervals.len() / 2;
    let part = &intervals[middle..middle + intervals.len() / PARTS];
    least_within(part, unit, denominator, growth / PARTS as u128, start)
}

/// The least price of those that make the bound least, when it is the price of every step but the last. It takes
/// no memory. It goes over the intervals some fifteen times, and first over a part of them, whose least price is a
/// guess at that of all.
pub fn least(intervals: &Intervals, unit: u64, units: u64, denominator: u64) -> u128
    requires unit { 1 ≤ unit }
    requires denominator { denominator ≤ 2 ^ 48 }
    ensures least { IsLeastConstant intervals.now unit units denominator result }
    ensures price { result ≤ 2 ^ 96 }
    ensures sum { units * sum (constant_prices result intervals.now.steps) ≤ 2 ^ 121 }
{
    let items = intervals.as_slice();
    let growth = u128::from(units) * u128::from(intervals.steps().saturating_sub(1));
    let guess = guess_from(items, unit, denominator, growth, 0);
    least_within(items, unit, denominator, growth, guess)
}

/// The same price, whatever the one from which it is sought. From one that is near it goes over the intervals some
/// four times. It takes memory for those whose surplus ends near the least price, 24 bytes each.
pub fn least_from(
    alloc: Global,
    intervals: &Intervals,
    unit: u64,
    units: u64,
    denominator: u64,
    start: u128,
) -> Result<u128, NoMemory>
    requires unit { 1 ≤ unit }
    requires denominator { denominator ≤ 2 ^ 48 }
    ensures least { IfOk result (λ price. IsLeastConstant intervals.now unit units denominator price) }
    ensures price { IfOk result (λ price. price ≤ 2 ^ 96) }
    ensures sum { IfOk result (λ price. units * sum (constant_prices price intervals.now.steps) ≤ 2 ^ 121) }
{
    let items = intervals.as_slice();
    let growth = u128::from(units) * u128::from(intervals.steps().saturating_sub(1));
    let guess = guess_from(items, unit, denominator, growth, start);
    let price = least_near(alloc, items, unit, denominator, growth, guess)?;
    Ok(price)
}
