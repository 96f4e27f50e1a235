//! The intervals that meet a block, cut to it.
ghost use Rattle.std.specs.Prelude.{◌≡◌, ◌+◌, ◌-◌, ◌*◌, ◌<◌, ◌≤◌, ◌^◌, ◌++◌, All, IfOk, length, sum};
ghost use Rattle.cache_model.specs.Units.{weight};
ghost use Rattle.interval_maker.specs.Timelines.{IsInterval};
ghost use Rattle.price_refine.specs.Parts.{AreCounted, AreSumsBeside, IsBlock, arcs_of_worth};
ghost use Rattle.price_refine.specs.Parts.{block_instance, cut_arc, meets, upper_arcs, worth_above};

use crate::block::Block;
use crate::pricing::Pricing;
use bound_base::NoMemory;
use cache_model::Interval;
use flow_model::{Instance, OuterArc};
use std::alloc::Global;

// Whether the interval covers a step of the block.
fn meets(block: Block, interval: &Interval) -> bool
    ensures { result ≡ meets block interval.now }
{
    interval.start < block.end && block.first < interval.end
}

// An arc over the steps of the block that the interval covers.
fn cut_arc(block: Block, interval: &Interval, weight: u64, cost: u128) -> OuterArc
    requires order { block.first < block.end }
    requires met { block.first < interval.now.end }
    ensures { result ≡ cut_arc block interval.now weight cost }
{
    OuterArc {
        start: interval.start.max(block.first) - block.first,
        end: interval.end.min(block.end) - block.first,
        weight,
        cost,
    }
}

// What the interval earns above the price of the steps outside, over the denominator.
fn worth_above(block: Block, interval: &Interval, outside: u128) -> u128
    requires unit { 1 ≤ block.unit }
    requires denominator { block.denominator ≤ 2 ^ 48 }
    requires gain { interval.now.gain ≤ 2 ^ 48 }
    ensures worth { result ≡ worth_above block outside interval.now }
    ensures small { result ≤ 2 ^ 96 }
{
    let gain = block.denominator as u128 * interval.gain as u128;
    let weight = (interval.size / block.unit) as u128;
    match weight.checked_mul(outside) {
        Some(price) => gain.saturating_sub(price),
        None => 0,
    }
}

// Adds the arcs of an interval of some worth, which together have its weight. If the worth is no multiple of the
// weight, a unit of the rest costs one more.
fn push_arcs(
    block: Block,
    interval: &Interval,
    worth: u128,
    arcs: &mut Vec<OuterArc>,
) -> Result<(), NoMemory>
    requires unit { 1 ≤ block.unit }
    requires weight { 1 ≤ weight block.unit interval.now }
    requires small { worth ≤ 2 ^ 96 }
    requires order { block.first < block.end }
    requires met { block.first < interval.now.end }
    ensures { IfOk result (λ done. arcs.new.items ≡ arcs.old.items ++ arcs_of_worth block interval.now (weight block.unit interval.now) worth) }
{
    if worth == 0 {
        return Ok(());
    }
    let weight = interval.size / block.unit;
    let cost = worth / weight as u128;
    let rest = (worth % weight as u128) as u64;
    arcs.push(cut_arc(block, interval, weight - rest, cost))?;
    if rest == 0 {
        return Ok(());
    }
    arcs.push(cut_arc(block, interval, rest, cost + 1))?;
    Ok(())
}

/// The instance of a block at the prices outside, of the intervals that meet it. It takes 64 bytes for each interval.
pub(crate) fn block_instance(
    alloc: Global,
    intervals: &[Interval],
    block: Block,
    pricing: &Pricing,
) -> Result<Instance, NoMemory>
    requires block { IsBlock (length pricing.now.prices.items) block }
    requires sums { AreSumsBeside block.first block.first pricing.now.prices.items pricing.now.sums.items }
    requires small { sum pricing.now.prices.items ≤ 2 ^ 126 }
    requires counted { AreCounted (length pricing.now.prices.items) block.unit intervals.now }
    ensures { IfOk result (λ i. i ≡ block_instance block pricing.now.prices.items intervals.now) }
{
    let mut arcs = Vec::with_capacity(alloc, 2 * intervals.len())?;
    for interval in intervals {
        if meets(block, interval) {
            let outside = pricing.outside(block, interval);
            let worth = worth_above(block, interval, outside);
            push_arcs(block, interval, worth, &mut arcs)?;
        }
    }
    Ok(Instance::new(block.end - block.first, block.units, arcs))
}
