//! The order of the arcs that pass through some window, by what a whole window of them costs.
ghost use Rattle.std.specs.Prelude.{◌≡◌, ◌<◌, ◌≤◌, ◌^◌, length, map, All, IfOk};
ghost use Rattle.window_arcs.specs.Passing.{IsOrder, whole_share};
ghost use Rattle.window_arcs.specs.Ranks.{AreOrdered, AreRanksOf};

use crate::passing::passes_some;
use bound_base::{NoMemory, floor_div};
use flow_model::{Instance, OuterArc};
use std::alloc::Global;

/// The numbers of the arcs that pass through some window, those first whose whole windows cost most, and for each arc
/// the rank of its number among them, or 0 if it has none.
#[derive(Drop)]
pub(crate) struct Order {
    pub(crate) numbers: Vec<u32>,
    pub(crate) ranks: Vec<u32>,
}

// The number of an arc, and how far what a whole window of it costs is below the greatest number.
#[derive(Clone, Copy, Debug)]
struct Ranked {
    below: u128,
    number: u32,
}

/// What each window costs through which the arc passes.
pub(crate) fn whole_share(arc: &OuterArc, width: u32) -> u128
    requires order { arc.now.start < arc.now.end }
    requires cost { arc.now.cost ≤ 2 ^ 97 }
    requires width { width ≤ 2 ^ 25 }
    ensures { result ≡ whole_share width arc.now }
{
    floor_div(arc.cost * width as u128, (arc.end - arc.start) as u128)
}

// The arcs that pass through some window, those first whose whole windows cost most.
fn ranked_arcs(alloc: Global, whole: &Instance, width: u32) -> Result<Vec<Ranked>, NoMemory>
    requires some { 0 < width }
    requires narrow { width ≤ 2 ^ 25 }
    ensures { IfOk result (λ ranked. AreOrdered width whole.now.arcs (map (λ r. r.number) ranked.items)) }
{
    let arcs = whole.arcs();
    let passing = arcs.iter().filter(|arc| passes_some(arc, width)).count();
    let mut ranked = Vec::with_capacity(alloc, passing)?;
    for (number, arc) in arcs.iter().enumerate() {
        if passes_some(arc, width) {
            ranked.push(Ranked {
                below: u128::MAX - whole_share(arc, width),
                number: number as u32,
            })?;
        }
    }
    ranked.sort_unstable_by_key(|ranked| ranked.below);
    Ok(ranked)
}

// Their numbers.
fn numbers_of(alloc: Global, whole: &Instance, width: u32) -> Result<Vec<u32>, NoMemory>
    requires some { 0 < width }
    requires narrow { width ≤ 2 ^ 25 }
    ensures { IfOk result (λ numbers. AreOrdered width whole.now.arcs numbers.items) }
{
    let ranked = ranked_arcs(alloc, whole, width)?;
    Ok(ranked.iter().map(|ranked| ranked.number).collect(alloc)?)
}

// The rank of each of these numbers of arcs, and 0 for another arc.
fn ranks_of(alloc: Global, numbers: &[u32], arcs: usize) -> Result<Vec<u32>, NoMemory>
    requires few { length numbers.now ≤ 2 ^ 26 }
    requires within { All (λ i. i < arcs) numbers.now }
    ensures { IfOk result (λ ranks. AreRanksOf arcs numbers.now ranks.items) }
{
    let mut ranks = vec![in alloc; 0; arcs]?;
    for (rank, number) in numbers.iter().enumerate() {
        ranks[*number as usize] = rank as u32;
    }
    Ok(ranks)
}

/// The order of the arcs for windows of that width. It takes 4 bytes for each arc and 4 for each that passes through
/// some window, and while it is made 32 more for each of these.
pub(crate) fn order_of(alloc: Global, whole: &Instance, width: u32) -> Result<Order, NoMemory>
    requires some { 0 < width }
    requires narrow { width ≤ 2 ^ 25 }
    ensures { IfOk result (λ order. IsOrder width whole.now.arcs order.numbers.items order.ranks.items) }
{
    let numbers = numbers_of(alloc, whole, width)?;
    let ranks = ranks_of(alloc, &numbers, whole.arcs().len())?;
    Ok(Order { numbers, ranks })
}
