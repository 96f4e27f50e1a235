//! One block of prices, made best against the prices outside.
ghost use Rattle.std.specs.Prelude.{◌≡◌, List, ◌+◌, ◌-◌, ◌*◌, ◌<◌, ◌≤◌, ◌^◌, All, IfOk, filter, length, sum, sum_by};
ghost use Rattle.cache_model.specs.declared.intervals.Interval.{Interval as Item};
ghost use Rattle.cache_model.specs.Intervals.{bound_of};
ghost use Rattle.flow_model.specs.Instances.{IsLeast};
ghost use Rattle.price_refine.specs.Parts.{AreCounted, AreSumsBeside, IsBlock, IsChoice, IsSettling, meets};

use crate::block::Block;
use crate::parts::block_instance;
use crate::pricing::Pricing;
use crate::values::value_at;
use bound_base::NoMemory;
use cache_model::Interval;
use flow_model::{Instance, Solution};
use std::alloc::Global;
use window_bounds::solve_windows;

// Least prices of the instance.
fn solve(alloc: Global, instance: &Instance) -> Result<Solution, NoMemory>
    requires some { 1 ≤ instance.now.steps }
    ensures each_step { IfOk result (λ s. length s.prices ≡ instance.now.steps) }
    ensures least { IfOk result (λ s. IsLeast instance.now s.prices) }
    ensures paid { IfOk result (λ s. instance.now.units * sum s.prices ≤ sum_by (λ arc. arc.weight * arc.cost) instance.now.arcs) }
{
    let found = solve_windows(alloc, instance, instance.steps())?;
    Ok(found.into_parts().0)
}

// Puts the prices that were found into the block, if they are better.
fn keep_better(pricing: &mut Pricing, block: Block, found: &[u128], is_better: bool)
    requires order { block.first < block.end }
    requires within { block.end < length pricing.old.prices.items }
    requires each_step { length found.now ≡ block.end - block.first }
    ensures prices { IsChoice block pricing.old.prices.items found.now is_better pricing.new.prices.items }
    ensures sums { pricing.new.sums.items ≡ pricing.old.sums.items }
{
    if is_better {
        pricing.prices[block.first as usize..block.end as usize].copy_from_slice(found);
    }
}

/// Settles the block: its prices become best, if they give a smaller bound than those that stand. The result is by how
/// much the bound falls. All intervals that meet the block must be given, in order. It takes 64 bytes for each of
/// these and the memory of the solver.
pub(crate) fn settle(
    alloc: Global,
    intervals: &[Interval],
    block: Block,
    pricing: &mut Pricing,
) -> Result<u128, NoMemory>
    requires block { IsBlock (length pricing.old.prices.items) block }
    requires sums { AreSumsBeside block.first block.first pricing.old.prices.items pricing.old.sums.items }
    requires paid { block.units * sum pricing.old.prices.items ≤ 2 ^ 126 }
    requires counted { AreCounted (length pricing.old.prices.items) block.unit intervals.now }
    ensures settled { IfOk result (λ fall. (all : List Item) → filter (meets block) all ≡ filter (meets block) intervals.now
        → AreCounted (length pricing.old.prices.items) block.unit all → IsSettling all block pricing.old.prices.items pricing.new.prices.items fall) }
    ensures sums { IfOk result (λ fall. AreSumsBeside block.end block.end pricing.new.prices.items pricing.new.sums.items) }
{
    let instance = block_instance(alloc, intervals, block, pricing)?;
    let solution = solve(alloc, &instance)?;
    let standing = &pricing.prices[block.first as usize..block.end as usize];
    let old_value = value_at(alloc, &instance, standing)?;
    let new_value = value_at(alloc, &instance, solution.prices())?;
    keep_better(pricing, block, solution.prices(), new_value < old_value);
    pricing.sum_up(block);
    Ok(old_value.saturating_sub(new_value))
}
