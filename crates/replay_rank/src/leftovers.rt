//! The items that objects leave behind that are let go of, where ranks stand over a floor.
ghost use Rattle.std.specs.Prelude.{◌≡◌, ◌≤◌, length};
ghost use Rattle.std.specs.BinaryHeap.{heap_items};
ghost use Rattle.replay_rank.specs.AgingEntries.{is_standing, AreOrdered};
ghost use Rattle.replay_rank.specs.HeldPairs.{IsThinned};

use crate::aging::{Items, Ranked, is_at_most};
use crate::holdings::Holdings;
use std::alloc::Global;
use std::cmp::Reverse;
use std::collections::BinaryHeap;
use std::mem;

/// The fewest items among which those are looked for that stand for nothing.
pub(crate) const FEW: usize = 64;

// Whether an item stands for its object, which is held, by its rank or a lesser one.
fn is_standing(holdings: &Holdings<Ranked>, item: &Reverse<((u128, u64), u32)>) -> bool
    ensures { result ≡ is_standing holdings.now item.now }
{
    match holdings.get(item.0.1) {
        Some(held) => is_at_most(item.0.0, (held.kept.rank, held.kept.last)),
        None => false,
    }
}

// Of the items that stand for their objects, one for each object.
fn one_each(holdings: &Holdings<Ranked>, items: Vec<Reverse<((u128, u64), u32)>>) -> Items
    requires ordered { AreOrdered holdings.now items.items }
    ensures ordered { AreOrdered holdings.now (heap_items result) }
    ensures few { length (heap_items result) ≤ length holdings.now }
{
    let mut items = items;
    items.retain(|item| is_standing(holdings, item));
    items.sort_unstable_by_key(|item| item.0.1);
    items.dedup_by_key(|item| item.0.1);
    BinaryHeap::from(items)
}

/// Throws away all items but one for each object that is held, if there are this many items, and says at how many to do it
/// again. It takes no memory.
pub(crate) fn throw_away(
    alloc: Global,
    holdings: &Holdings<Ranked>,
    order: &mut Items,
    limit: usize,
) -> usize
    requires ordered { AreOrdered holdings.now (heap_items order.old) }
    ensures ordered { AreOrdered holdings.now (heap_items order.new) }
    ensures few { IsThinned limit result (length (heap_items order.new)) (length holdings.now) }
{
    if order.len() < limit {
        return limit;
    }
    let items = mem::replace(order, BinaryHeap::new(alloc)).into_vec();
    *order = one_each(holdings, items);
    order.len().saturating_mul(2).max(FEW)
}
