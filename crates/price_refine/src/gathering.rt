//! The intervals that meet a block, carried from block to block.
ghost use Rattle.std.specs.Prelude.{◌≡◌, ◌<◌, ◌≤◌, AllPairs, IfOk, filter, nat_lt, take};
ghost use Rattle.price_refine.specs.Parts.{meets};
ghost use Rattle.price_refine.specs.Rounds.{AreOpen};

use crate::block::Block;
use bound_base::NoMemory;
use cache_model::Interval;

/// The intervals that were open at a block, in order of start, and how many intervals have been met so far. It takes 24
/// bytes for each that is gathered.
#[derive(Drop)]
pub(crate) struct Gathered {
    pub(crate) met: Vec<Interval>,
    pub(crate) next: usize,
}

// Drops the intervals that end at the place or before it.
fn drop_ended(met: &mut Vec<Interval>, place: u32)
    ensures { met.new.items ≡ filter (λ i. nat_lt place i.end) met.old.items }
{
    met.retain(|interval| place < interval.end);
}

/// Drops the intervals that end before the block and adds those that start in it.
pub(crate) fn gather(
    items: &[Interval],
    block: Block,
    gathered: &mut Gathered,
) -> Result<(), NoMemory>
    requires open { AreOpen block.first items.now gathered.old }
    requires order { AllPairs (λ i j. i.start < j.start) items.now }
    requires blocks { block.first ≤ block.end }
    ensures ended { IfOk result (λ done. gathered.new.met.items ≡ filter (λ i. nat_lt block.first i.end) (take gathered.new.next items.now)) }
    ensures met { IfOk result (λ done. filter (meets block) items.now ≡ filter (meets block) gathered.new.met.items) }
    ensures open { IfOk result (λ done. AreOpen block.end items.now gathered.new) }
{
    drop_ended(&mut gathered.met, block.first);
    while gathered.next < items.len() && items[gathered.next].start < block.end {
        let interval = items[gathered.next];
        if block.first < interval.end {
            gathered.met.push(interval)?;
        }
        gathered.next += 1;
    }
    Ok(())
}
