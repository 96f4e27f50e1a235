//! Blocks of prices, settled against the prices outside.
ghost use Rattle.std.specs.Prelude.{◌≡◌, ◌+◌, ◌≤◌, ◌<◌, ◌*◌, ◌-◌, ◌^◌, All, AllPairs, IfOk, IsTrue, length, replicate, slice_index_or, sum};
ghost use Prim.Native.Nat.{◌∣◌};
ghost use Rattle.cache_model.specs.Intervals.{bound_of};
ghost use Rattle.price_refine.specs.Blocks.{AreSettled};
ghost use Rattle.price_refine.specs.Parts.{bound_in};
ghost use Rattle.price_refine.specs.Rounds.{AreNoWorse, CanSettle};

use crate::block::Block;
use crate::pricing::{Pricing, sums_of};
use crate::refined::Refined;
use crate::round::settle_round;
use crate::settling::settle;
use bound_base::NoMemory;
use cache_model::Interval;
use interval_maker::Intervals;
use relaxation::{Sums, bound_of};
use std::alloc::Global;

/// The most rounds.
const ROUNDS: u32 = 64;

/// All rounds together meet at most this many intervals for each interval and step.
const WORK: u64 = 4;

/// A round that lowers the bound by less than this part of it is the last one.
const LEAST_PART: u128 = 128;

// The bound of the prices.
fn upper_of(
    alloc: Global,
    intervals: &Intervals,
    whole: Block,
    prices: &[u128],
) -> Result<u128, NoMemory>
    requires unit { 1 ≤ whole.unit }
    requires units { 1 ≤ whole.units }
    requires denominator { whole.denominator ≤ 2 ^ 48 }
    requires each_step { length prices.now ≡ intervals.now.steps }
    requires paid { whole.units * sum prices.now ≤ 2 ^ 126 }
    ensures { IfOk result (λ u. u ≡ bound_in whole intervals.now.items prices.now) }
{
    let _steps = intervals.steps();
    let sums = Sums::within_limit(alloc, prices, whole.units)?;
    Ok(bound_of(intervals, whole.unit, whole.units, whole.denominator, &sums))
}

// No prices for this many steps.
fn no_prices(alloc: Global, steps: u32) -> Result<Vec<u128>, NoMemory>
    ensures { IfOk result (λ r. r.items ≡ replicate steps 0) }
{
    Ok(vec![in alloc; 0; steps as usize]?)
}

// The prices to begin with, and their bound: those that are given, or none if their bound is smaller.
fn first_prices(
    alloc: Global,
    intervals: &Intervals,
    whole: Block,
    prices: &[u128],
) -> Result<Refined, NoMemory>
    requires unit { 1 ≤ whole.unit }
    requires units { 1 ≤ whole.units }
    requires denominator { whole.denominator ≤ 2 ^ 48 }
    requires each_step { length prices.now ≡ intervals.now.steps }
    requires last { slice_index_or prices.now whole.end 0 ≡ 0 }
    requires paid { whole.units * sum prices.now ≤ 2 ^ 126 }
    ensures no_worse { IfOk result (λ r. AreNoWorse whole intervals.now.items prices.now r.prices) }
    ensures upper { IfOk result (λ r. r.upper ≡ bound_in whole intervals.now.items r.prices) }
    ensures small { IfOk result (λ r. r.upper ≤ 2 ^ 126) }
{
    let none = no_prices(alloc, intervals.steps())?;
    let without = upper_of(alloc, intervals, whole, &none)?;
    let upper = upper_of(alloc, intervals, whole, prices)?;
    if without < upper {
        return Ok(Refined {
            prices: none,
            upper: without,
        });
    }
    let prices = prices.to_vec(alloc)?;
    Ok(Refined { prices, upper })
}

// How many rounds may be made: all blocks together meet an interval as often as its steps reach into blocks, and narrow
// blocks meet a long one many times.
fn rounds_within(items: &[Interval], steps: u32, width: u32) -> u32
    requires { 1 ≤ width }
    ensures { result ≤ 64 }
{
    let mut met: u64 = 0;
    for interval in items {
        let blocks = interval.end.saturating_sub(interval.start) as u64 / width as u64 + 1;
        met = met.saturating_add(blocks);
    }
    let most = WORK.saturating_mul((items.len() as u64).saturating_add(steps as u64));
    (most / met.max(1)).min(ROUNDS as u64) as u32
}

// Goes through the blocks in rounds, until one lowers the bound by less than a part of it, or until that was work enough.
// If one block has all steps there are none. The bound is that of the prices, before and after. The result is whether the last round has not
// lowered it, so that all blocks are settled.
fn settle_rounds(
    alloc: Global,
    items: &[Interval],
    whole: Block,
    width: u32,
    bound: &mut u128,
    pricing: &mut Pricing,
) -> Result<bool, NoMemory>
    requires ready { CanSettle whole width items.now pricing.old }
    requires bound { bound.old ≡ bound_in whole items.now pricing.old.prices.items }
    ensures no_worse { IfOk result (λ done. AreNoWorse whole items.now pricing.old.prices.items pricing.new.prices.items) }
    ensures settled { IfOk result (λ done. IsTrue done → AreSettled items.now whole.unit whole.units whole.denominator width pricing.new.prices.items) }
    ensures ready { IfOk result (λ done. CanSettle whole width items.now pricing.new) }
    ensures bound { IfOk result (λ done. bound.new ≡ bound_in whole items.now pricing.new.prices.items) }
{
    if whole.end <= width / 2 {
        return Ok(false);
    }
    for _round in 0..rounds_within(items, whole.end, width) {
        let least = *bound / LEAST_PART;
        let fall = settle_round(alloc, items, whole, width, pricing)?;
        *bound -= fall;
        if fall == 0 {
            return Ok(true);
        }
        if fall < least {
            return Ok(false);
        }
    }
    Ok(false)
}

// Settles all blocks: in rounds, or else by taking all steps but the last as one block. The result is the bound of the
// new prices, which is that of the old ones less what each block has lowered it by.
fn settle_all(
    alloc: Global,
    items: &[Interval],
    whole: Block,
    width: u32,
    first_bound: u128,
    pricing: &mut Pricing,
) -> Result<u128, NoMemory>
    requires ready { CanSettle whole width items.now pricing.old }
    requires bound { first_bound ≡ bound_in whole items.now pricing.old.prices.items }
    ensures no_worse { IfOk result (λ bound. AreNoWorse whole items.now pricing.old.prices.items pricing.new.prices.items) }
    ensures bound { IfOk result (λ bound. bound ≡ bound_in whole items.now pricing.new.prices.items) }
    ensures settled { IfOk result (λ bound. AreSettled items.now whole.unit whole.units whole.denominator width pricing.new.prices.items) }
{
    let mut bound = first_bound;
    if settle_rounds(alloc, items, whole, width, &mut bound, pricing)? {
        return Ok(bound);
    }
    let fall = settle(alloc, items, whole, pricing)?;
    Ok(bound - fall)
}

// The prices after all blocks are settled, and their bound.
fn settled_prices(
    alloc: Global,
    intervals: &Intervals,
    whole: Block,
    width: u32,
    given: Refined,
) -> Result<Refined, NoMemory>
    requires unit { 1 ≤ whole.unit }
    requires divides { All (λ i. whole.unit ∣ i.size) intervals.now.items }
    requires units { (1 ≤ whole.units) × (whole.units ≤ 2 ^ 56) }
    requires denominator { whole.denominator ≤ 2 ^ 48 }
    requires width { 1 ≤ width }
    requires first { whole.first ≡ 0 }
    requires last { whole.end ≡ intervals.now.steps - 1 }
    requires each_step { length given.prices ≡ intervals.now.steps }
    requires upper { given.upper ≡ bound_in whole intervals.now.items given.prices }
    requires small { given.upper ≤ 2 ^ 126 }
    ensures no_worse { IfOk result (λ r. AreNoWorse whole intervals.now.items given.prices r.prices) }
    ensures upper { IfOk result (λ r. r.upper ≡ bound_in whole intervals.now.items r.prices) }
    ensures settled { IfOk result (λ r. AreSettled intervals.now.items whole.unit whole.units whole.denominator width r.prices) }
{
    if intervals.steps() < 2 {
        return Ok(given);
    }
    let items = intervals.as_slice();
    let Refined { prices, upper } = given;
    let sums = sums_of(alloc, &prices)?;
    let mut pricing = Pricing { prices, sums };
    let upper = settle_all(alloc, items, whole, width, upper, &mut pricing)?;
    let prices = pricing.prices;
    Ok(Refined { prices, upper })
}

/// Prices that are settled for the blocks of a width, and give no greater bound than those that are given. There is one
/// price for each step, over the denominator, for this many units of `unit` bytes.
///
/// The blocks are settled in rounds, as long as a round lowers the bound by a 128th of it, and all rounds together meet at
/// most four intervals for each interval and step. If the last one lowered it at all, or there is none, the steps but the last one are then settled as one block, which settles every block. It takes 48 bytes for each
/// step, 24 for each interval that is open at a block, and for one block at a time 64 for each interval that meets it,
/// with the memory of the solver.
pub fn refine(
    alloc: Global,
    intervals: &Intervals,
    unit: u64,
    units: u64,
    denominator: u64,
    width: u32,
    prices: &[u128],
) -> Result<Refined, NoMemory>
    requires unit { 1 ≤ unit }
    requires divides { All (λ i. unit ∣ i.size) intervals.now.items }
    requires units { (1 ≤ units) × (units ≤ 2 ^ 56) }
    requires denominator { (1 ≤ denominator) × (denominator ≤ 2 ^ 48) }
    requires width { 1 ≤ width }
    requires each_step { length prices.now ≡ intervals.now.steps }
    requires last { slice_index_or prices.now (intervals.now.steps - 1) 0 ≡ 0 }
    requires paid { units * sum prices.now ≤ 2 ^ 126 }
    ensures each_step { IfOk result (λ r. length r.prices ≡ intervals.now.steps) }
    ensures last { IfOk result (λ r. slice_index_or r.prices (intervals.now.steps - 1) 0 ≡ 0) }
    ensures paid { IfOk result (λ r. units * sum r.prices ≤ 2 ^ 126) }
    ensures upper { IfOk result (λ r. r.upper ≡ bound_of intervals.now.items unit units denominator r.prices) }
    ensures not_greater { IfOk result (λ r. r.upper ≤ bound_of intervals.now.items unit units denominator prices.now) }
    ensures settled { IfOk result (λ r. AreSettled intervals.now.items unit units denominator width r.prices) }
{
    let whole = Block {
        unit,
        units,
        denominator,
        first: 0,
        end: intervals.steps().saturating_sub(1),
    };
    let first = first_prices(alloc, intervals, whole, prices)?;
    settled_prices(alloc, intervals, whole, width, first)
}
