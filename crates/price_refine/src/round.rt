//! A round over the blocks, in order.
ghost use Rattle.std.specs.Prelude.{◌≡◌, ℕ, List, ◌+◌, ◌-◌, ◌*◌, ◌/◌, ◌<◌, ◌≤◌, ◌^◌, AllPairs, IfOk, length, min, sum};
ghost use Rattle.price_refine.specs.Parts.{AreCounted, AreSumsBeside, IsBlock, IsSettling};
ghost use Rattle.price_refine.specs.Rounds.{AreNoWorse, AreOpen, CanSettle, IsRound, numbered_block, place_of};

use crate::block::Block;
use crate::gathering::{Gathered, gather};
use crate::pricing::Pricing;
use crate::settling::settle;
use bound_base::NoMemory;
use cache_model::Interval;
use std::alloc::Global;

// Where a block of that number begins, or the end of all blocks if it has no step.
fn place_of(whole: Block, width: u32, number: u32) -> u32
    requires { number ≤ 2 ^ 26 }
    ensures { result ≡ place_of whole width number }
{
    let end = width as u64 / 2 + width as u64 * number as u64;
    end.saturating_sub(width as u64).min(whole.end as u64) as u32
}

// The block of that number.
fn numbered_block(whole: Block, width: u32, number: u32) -> Block
    requires { number < 2 ^ 26 }
    ensures { result ≡ numbered_block whole width number }
{
    Block {
        first: place_of(whole, width, number),
        end: place_of(whole, width, number + 1),
        ..whole
    }
}

// Settles the next block, if it has a step. The result is by how much the bound falls.
fn settle_next(
    alloc: Global,
    items: &[Interval],
    block: Block,
    gathered: &mut Gathered,
    pricing: &mut Pricing,
) -> Result<u128, NoMemory>
    requires order { block.first ≤ block.end }
    requires block { block.first < block.end → IsBlock (length pricing.old.prices.items) block }
    requires counted { AreCounted (length pricing.old.prices.items) block.unit items.now }
    requires starts { AllPairs (λ i j. i.start < j.start) items.now }
    requires paid { block.units * sum pricing.old.prices.items ≤ 2 ^ 126 }
    requires open { AreOpen block.first items.now gathered.old }
    requires sums { AreSumsBeside block.first block.first pricing.old.prices.items pricing.old.sums.items }
    ensures settled { IfOk result (λ fall. IsSettling items.now block pricing.old.prices.items pricing.new.prices.items fall) }
    ensures open { IfOk result (λ fall. AreOpen block.end items.now gathered.new) }
    ensures sums { IfOk result (λ fall. AreSumsBeside block.end block.end pricing.new.prices.items pricing.new.sums.items) }
{
    if block.first == block.end {
        return Ok(0);
    }
    gather(items, block, gathered)?;
    settle(alloc, &gathered.met, block, pricing)
}

/// Settles the blocks of a width one after another. The result is by how much the bound falls. If it does not, each
/// block is settled for the prices that stand. A round takes time in the number of steps and of the parts of the
/// intervals, besides that of the solver in each block.
pub(crate) fn settle_round(
    alloc: Global,
    items: &[Interval],
    whole: Block,
    width: u32,
    pricing: &mut Pricing,
) -> Result<u128, NoMemory>
    requires { CanSettle whole width items.now pricing.old }
    ensures no_worse { IfOk result (λ fall. AreNoWorse whole items.now pricing.old.prices.items pricing.new.prices.items) }
    ensures settled { IfOk result (λ fall. IsRound whole width items.now pricing.old.prices.items pricing.new.prices.items fall) }
    ensures ready { IfOk result (λ fall. CanSettle whole width items.now pricing.new) }
{
    let mut gathered = Gathered {
        met: Vec::new(alloc),
        next: 0,
    };
    let mut fall: u128 = 0;
    for number in 0..whole.end / width + 2 {
        let block = numbered_block(whole, width, number);
        let fallen = settle_next(alloc, items, block, &mut gathered, pricing)?;
        fall += fallen;
    }
    Ok(fall)
}
