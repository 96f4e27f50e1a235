//! Prices, with their sums.
ghost use Rattle.std.specs.Prelude.{◌≡◌, ◌≤◌, ◌<◌, ◌^◌, length, slice_index, sum, IfOk};
ghost use Rattle.relaxation.specs.Prices.{AreSums};
ghost use Rattle.price_refine.specs.Parts.{AreBetween, AreSumsBeside, price_outside};

use crate::block::Block;
use bound_base::NoMemory;
use cache_model::Interval;
use std::alloc::Global;

/// The price of each step, and sums of them before each step and after the last: 32 bytes for each step. While blocks
/// are settled in order, the sums behind the block are those of older prices, of which only the differences count.
#[derive(Drop)]
pub(crate) struct Pricing {
    pub(crate) prices: Vec<u128>,
    pub(crate) sums: Vec<u128>,
}

/// The sums of the prices before each step, and after the last.
pub(crate) fn sums_of(alloc: Global, prices: &[u128]) -> Result<Vec<u128>, NoMemory>
    requires few { length prices.now ≤ 2 ^ 25 }
    requires small { sum prices.now ≤ 2 ^ 126 }
    ensures { IfOk result (λ sums. AreSums prices.now sums.items) }
{
    let mut sums = Vec::with_capacity(alloc, prices.len() + 1)?;
    sums.push_reserved(0);
    let mut sum = 0;
    for price in prices {
        sum += *price;
        sums.push_reserved(sum);
    }
    Ok(sums)
}

// The difference of the sums at two steps, or 0 if they are not in order.
fn between(sums: &[u128], from: u32, to: u32) -> u128
    requires { from < to → (to < length sums.now) × (slice_index sums.now from ≤ slice_index sums.now to) }
    ensures { AreBetween sums.now from to result }
{
    if from < to {
        sums[to as usize] - sums[from as usize]
    } else {
        0
    }
}

impl Pricing {
    /// The prices of the steps that the interval covers outside of the block, summed.
    pub(crate) fn outside(&self, block: Block, interval: &Interval) -> u128
        requires sums { AreSumsBeside block.first block.first self.now.prices.items self.now.sums.items }
        requires small { sum self.now.prices.items ≤ 2 ^ 126 }
        requires order { block.first < block.end }
        requires within { interval.now.end < length self.now.prices.items }
        requires met { (interval.now.start < block.end) × (block.first < interval.now.end) }
        ensures { result ≡ price_outside block self.now.prices.items interval.now }
    {
        let before = between(&self.sums, interval.start, block.first);
        let behind = between(&self.sums, block.end, interval.end);
        before + behind
    }

    /// Makes the sums those of the prices through the end of the block, as they are through its first step.
    pub(crate) fn sum_up(&mut self, block: Block)
        requires sums { AreSumsBeside block.first block.end self.old.prices.items self.old.sums.items }
        requires small { sum self.old.prices.items ≤ 2 ^ 127 }
        requires order { block.first < block.end }
        requires within { block.end < length self.old.prices.items }
        ensures prices { self.new.prices.items ≡ self.old.prices.items }
        ensures sums { AreSumsBeside block.end block.end self.new.prices.items self.new.sums.items }
    {
        for step in block.first as usize..block.end as usize {
            self.sums[step + 1] = self.sums[step] + self.prices[step];
        }
    }
}
