//! Prices of steps, and the bound that they give.
ghost use Rattle.std.specs.Prelude.{ℕ, ◌≡◌, ◌<◌, ◌≤◌, ◌+◌, ◌-◌, ◌*◌, ◌/◌, ◌^◌, List, [], ◌∷◌, length, sum, slice_range, IfOk, IfErr, OnOk};
ghost use Rattle.std.specs.Option.{SomeIff};
ghost use Rattle.std.specs.Vec.{vec_len, vec_capacity};
ghost use Rattle.cache_model.specs.declared.objects.Object.{Object};
ghost use Rattle.cache_model.specs.Intervals.{bound_of, surplus};
ghost use Rattle.cache_model.specs.Claim.{Terms, IsAllowed, score};
ghost use Rattle.interval_maker.specs.Timelines.{timeline_of};
ghost use Rattle.relaxation.specs.PriceFaults.{FailsAt};
ghost use Rattle.relaxation.specs.Prices.{most_paid};

use bound_base::NoMemory;
use cache_model::Interval;
use interval_maker::Intervals;
use std::alloc::Global;
use std::marker::Model;

/// The most that the units may pay for all steps.
const MOST_PAID: u128 = 1 << 126;

/// Why the sums of prices can't be had.
#[derive(Clone, Copy, Debug, PartialEq, Eq)]
pub enum PriceFault {
    /// Through this step and through none before it the units times the sum of the prices passes 2^126.
    SumLimit { step: u32 },
    /// There was not enough memory.
    NoMemory,
}

impl From<NoMemory> for PriceFault {
    ghost use Rattle.std.specs.Prelude.{◌≡◌};
    ghost use Rattle.relaxation.specs.declared.prices.PriceFault.TheVariants.{NoMemory};

    ghost from_gives = { λ _ f. f ≡ NoMemory };

    fn from(_: NoMemory) -> Self {
        PriceFault::NoMemory
    }
}

/// The prices of the steps, by the sums before each step and after the last, and the units that they were made for.
/// It takes 16 bytes for each step.
#[derive(Debug, Drop)]
pub struct Sums {
    units: u64,
    sums: Vec<u128>,
}

impl Model for Sums {
    ghost use Rattle.std.specs.Prelude.{◌≤◌, ◌*◌, sum};
    ghost use Rattle.relaxation.specs.Prices.{AreSums, Priced, most_paid, rises_of};

    ghost Value = { Priced };

    ghost view = { λ s. record { units = s.units; prices = rises_of s.sums.items } };

    ghost invariant = { λ s. AreSums (rises_of s.sums.items) s.sums.items × (s.units * sum (rises_of s.sums.items) ≤ most_paid) };
}

// A list of one sum, 0, with room for this many more.
fn room_for(alloc: Global, steps: usize) -> Result<Vec<u128>, NoMemory>
    requires { steps ≤ 2 ^ 25 }
    ensures first { IfOk result (λ sums. sums.items ≡ 0 ∷ []) }
    ensures room { IfOk result (λ sums. vec_len sums + steps ≤ vec_capacity sums) }
{
    let mut sums = Vec::with_capacity(alloc, steps + 1)?;
    sums.push_reserved(0);
    Ok(sums)
}

// The sum with one more price, if it is within the limit.
fn with_price(sum: u128, price: u128, limit: u128) -> Option<u128>
    ensures { SomeIff result (sum + price ≤ limit) (sum + price) }
{
    match sum.checked_add(price) {
        Some(more) if more <= limit => Some(more),
        _ => None,
    }
}

impl Sums {
    /// The sums of the prices, one for each step, for this many units. It takes one pass.
    pub fn new(alloc: Global, prices: &[u128], units: u64) -> Result<Sums, PriceFault>
        requires few { length prices.now ≤ 2 ^ 25 }
        requires units { 1 ≤ units }
        ensures made { IfOk result (λ s. s ≡ record { units = units; prices = prices.now }) }
        ensures within { OnOk result (units * sum prices.now ≤ most_paid) }
        ensures fault { IfErr result (FailsAt units prices.now) }
    {
        let limit = MOST_PAID / units as u128;
        let mut sums = room_for(alloc, prices.len())?;
        let mut sum = 0;
        for (step, price) in prices.iter().enumerate() {
            sum = match with_price(sum, *price, limit) {
                Some(more) => more,
                None => return Err(PriceFault::SumLimit { step: step as u32 }),
            };
            sums.push_reserved(sum);
        }
        Ok(Sums { units, sums })
    }

    /// The same sums, for units that are known to pay no more than the limit.
    pub fn within_limit(alloc: Global, prices: &[u128], units: u64) -> Result<Sums, NoMemory>
        requires few { length prices.now ≤ 2 ^ 25 }
        requires units { 1 ≤ units }
        requires within { units * sum prices.now ≤ most_paid }
        ensures made { IfOk result (λ s. s ≡ record { units = units; prices = prices.now }) }
    {
        let mut sums = room_for(alloc, prices.len())?;
        let mut sum = 0;
        for price in prices {
            sum += *price;
            sums.push_reserved(sum);
        }
        Ok(Sums { units, sums })
    }

    // The sum of all prices.
    fn total(&self) -> u128
        ensures sum { result ≡ sum self.now.prices }
        ensures most { self.now.units * result ≤ most_paid }
    {
        self.sums[self.sums.len() - 1]
    }

    // The sum of the prices of the steps from the start to the one before the end.
    fn over(&self, start: u32, end: u32) -> u128
        requires { (start ≤ end) × (end ≤ length self.now.prices) }
        ensures { result ≡ sum (slice_range self.now.prices start end) }
    {
        self.sums[end as usize] - self.sums[start as usize]
    }
}

// What the gain of an interval is above the price of its room, over the denominator, and 0 if it isn't.
fn surplus_of(interval: &Interval, unit: u64, denominator: u64, sums: &Sums) -> u128
    requires unit { 1 ≤ unit }
    requires denominator { denominator ≤ 2 ^ 48 }
    requires gain { interval.now.gain ≤ 2 ^ 48 }
    requires within { (interval.now.start ≤ interval.now.end) × (interval.now.end ≤ length sums.now.prices) }
    ensures value { result ≡ surplus unit denominator sums.now.prices interval.now }
    ensures small { result ≤ 2 ^ 96 }
{
    let worth = denominator as u128 * interval.gain as u128;
    let weight = (interval.size / unit) as u128;
    match weight.checked_mul(sums.over(interval.start, interval.end)) {
        Some(price) => worth.saturating_sub(price),
        None => 0,
    }
}

/// The numerator, over the denominator, of the bound that the prices give: no policy that the rules allow scores more.
/// It takes one pass over the intervals.
pub fn bound_of(intervals: &Intervals, unit: u64, units: u64, denominator: u64, sums: &Sums) -> u128
    requires unit { 1 ≤ unit }
    requires units { sums.now.units ≡ units }
    requires denominator { denominator ≤ 2 ^ 48 }
    requires each_step { length sums.now.prices ≡ intervals.now.steps }
    ensures value { result ≡ bound_of intervals.now.items unit units denominator sums.now.prices }
    ensures small { result < 2 ^ 127 }
    ensures no_policy_scores_more { (terms : Terms) (trace : List Object) (contents : List (List Object))
        → intervals.now ≡ timeline_of terms trace
        → units ≡ terms.capacity / unit
        → IsAllowed terms.capacity trace contents
        → denominator * score terms trace contents ≤ result }
{
    let mut total = units as u128 * sums.total();
    for interval in intervals.as_slice() {
        total += surplus_of(interval, unit, denominator, sums);
    }
    total
}
