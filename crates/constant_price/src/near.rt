//! The search for the least price near a guess, over the intervals that decide it.
ghost use Rattle.std.specs.Prelude.{◌≡◌, ℕ, ◌+◌, ◌<◌, ◌≤◌, ◌^◌, length, All, IfOk};
ghost use Rattle.interval_maker.specs.Timelines.{IsInterval};
ghost use Rattle.constant_price.specs.Surpluses.{fall_of};

use crate::search::least_within;
use crate::tangents::{TOP_PRICE, most_charge, surplus_and_fall, tangent_at};
use bound_base::NoMemory;
use cache_model::Interval;
use std::alloc::Global;

// At most this many prices are looked at for one on each side of the least.
const WIDENINGS: u8 = 16;

// Prices between which the least one is: none below the low one is enough, and the high one is.
#[derive(Clone, Copy)]
struct Bracket {
    low: u128,
    high: u128,
}

// The intervals that fall by other amounts at two prices, and the fall of the others, which is the same at both and between.
#[derive(Drop)]
struct Deciding {
    intervals: Vec<Interval>,
    steady: u128,
}

impl Bracket {
    // Whether a price is known on each side of the least one, or it is 0.
    fn is_closed(self) -> bool {
        self.high == 0 || (self.low > 0 && self.high < TOP_PRICE)
    }
}

// Prices on each side of the least one, as near to a guess as they are found.
fn bracket_around(
    intervals: &[Interval],
    unit: u64,
    denominator: u64,
    growth: u128,
    guess: u128,
) -> Bracket
    requires few { length intervals.now ≤ 2 ^ 25 }
    requires intervals { All (IsInterval (2 ^ 25)) intervals.now }
    requires unit { 1 ≤ unit }
    requires denominator { denominator ≤ 2 ^ 48 }
    ensures low { (q : ℕ) → q < result.low → growth < fall_of unit denominator q intervals.now }
    ensures high { fall_of unit denominator result.high intervals.now ≤ growth }
    ensures top { result.high ≤ TOP_PRICE }
{
    let mut found = Bracket {
        low: 0,
        high: TOP_PRICE,
    };
    let mut price = guess.min(TOP_PRICE - 1);
    let mut step = guess / 32 + 1;
    for _turn in 0..WIDENINGS {
        if tangent_at(intervals, unit, denominator, price).fall <= growth {
            found.high = price;
            price = price.saturating_sub(step);
        } else {
            found.low = price + 1;
            price = price.saturating_add(step).min(TOP_PRICE - 1);
        }
        if found.is_closed() {
            return found;
        }
        step = step.saturating_mul(2);
    }
    found
}

// The intervals that decide between two prices. It goes over all intervals once, and takes memory for these.
fn deciding_between(
    alloc: Global,
    intervals: &[Interval],
    unit: u64,
    denominator: u64,
    low: u128,
    high: u128,
) -> Result<Deciding, NoMemory>
    requires few { length intervals.now ≤ 2 ^ 25 }
    requires intervals { All (IsInterval (2 ^ 25)) intervals.now }
    requires unit { 1 ≤ unit }
    requires denominator { denominator ≤ 2 ^ 48 }
    requires order { low ≤ high }
    requires top { high ≤ TOP_PRICE }
    ensures falls { IfOk result (λ d. (q : ℕ) → low ≤ q → q ≤ high
        → fall_of unit denominator q intervals.now ≡ d.steady + fall_of unit denominator q d.intervals.items) }
    ensures few { IfOk result (λ d. length d.intervals.items ≤ 2 ^ 25) }
    ensures intervals { IfOk result (λ d. All (IsInterval (2 ^ 25)) d.intervals.items) }
{
    let most_early = most_charge(low);
    let most_late = most_charge(high);
    let mut found = Vec::new(alloc);
    let mut steady = 0;
    for interval in intervals {
        let (_, early) = surplus_and_fall(interval, unit, denominator, low, most_early);
        let (_, late) = surplus_and_fall(interval, unit, denominator, high, most_late);
        if early == late {
            steady += late;
        } else {
            found.push(*interval)?;
        }
    }
    Ok(Deciding {
        intervals: found,
        steady,
    })
}

/// The least price from which the surplus falls by no more than the growth, whatever the guess. From a guess that is
/// near it goes over the intervals some four times, and takes memory for those that decide, which are few then.
pub(crate) fn least_near(
    alloc: Global,
    intervals: &[Interval],
    unit: u64,
    denominator: u64,
    growth: u128,
    guess: u128,
) -> Result<u128, NoMemory>
    requires few { length intervals.now ≤ 2 ^ 25 }
    requires intervals { All (IsInterval (2 ^ 25)) intervals.now }
    requires unit { 1 ≤ unit }
    requires denominator { denominator ≤ 2 ^ 48 }
    ensures price { IfOk result (λ price. price ≤ TOP_PRICE) }
    ensures within { IfOk result (λ price. fall_of unit denominator price intervals.now ≤ growth) }
    ensures first { IfOk result (λ price. (q : ℕ) → q + 1 ≡ price → growth < fall_of unit denominator q intervals.now) }
{
    let Bracket { low, high } = bracket_around(intervals, unit, denominator, growth, guess);
    if high <= low {
        return Ok(high);
    }
    let found = deciding_between(alloc, intervals, unit, denominator, low, high)?;
    if found.steady > growth {
        return Ok(high);
    }
    let left = growth - found.steady;
    let price = least_within(&found.intervals, unit, denominator, left, guess);
    Ok(price.clamp(low, high))
}
