//! The order in which intervals are looked at.
ghost use Rattle.std.specs.Prelude.{◌≡◌, ◌<◌, ◌≤◌, ◌^◌, length, IfOk};
ghost use Rattle.cache_model.specs.Rounding.{rank};
ghost use Rattle.schedule_round.specs.Ranks.{IsRankOrder, number_of, rank_of};

use bound_base::NoMemory;
use interval_maker::{Interval, Intervals};
use std::alloc::Global;

/// An interval by its rank and its number, of which the rank comes first. Both are in one key, which takes half the
/// memory of the two and is compared at once.
#[derive(Clone, Copy, Debug, PartialEq, Eq, PartialOrd, Ord)]
pub(crate) struct Ranked {
    key: u128,
}

// One more than the greatest number of an interval.
const NUMBERS: u128 = 1 << 32;

impl Ranked {
    fn new(rank: u128, number: u32) -> Ranked
        requires small { rank < 2 ^ 96 }
        ensures rank { rank_of result ≡ rank }
        ensures number { number_of result ≡ number }
    {
        Ranked {
            key: rank * NUMBERS + u128::from(number),
        }
    }

    /// The number of the interval.
    pub(crate) fn number(self) -> u32
        ensures { result ≡ number_of self }
    {
        (self.key % NUMBERS) as u32
    }
}

// The size of an interval times the steps that it covers, over its gain.
fn rank(interval: &Interval) -> u128
    requires order { interval.now.start ≤ interval.now.end }
    requires gain { 0 < interval.now.gain }
    ensures rank { result ≡ rank interval.now }
    ensures small { result < 2 ^ 96 }
{
    let steps = u128::from(interval.end - interval.start);
    u128::from(interval.size) * steps / u128::from(interval.gain)
}

/// The intervals that are not flagged, those of the least rank first. Intervals of one rank stand in order of their starts.
pub(crate) fn order_of(
    alloc: Global,
    intervals: &Intervals,
    full: &[bool],
) -> Result<Vec<Ranked>, NoMemory>
    requires flags { length full.now ≡ length intervals.now.items }
    ensures { IfOk result (λ order. IsRankOrder intervals.now.items full.now order.items) }
{
    let items = intervals.as_slice();
    let mut order = Vec::with_capacity(alloc, items.len())?;
    for (number, interval) in items.iter().enumerate() {
        if !full[number] {
            order.push(Ranked::new(rank(interval), number as u32))?;
        }
    }
    order.sort_unstable();
    Ok(order)
}
