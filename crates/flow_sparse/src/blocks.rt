//! First prices: a constant price on some steps, and then those of blocks, which are solved one after another with the
//! prices outside of them fixed. What is proved of them is their number alone, since a solution is found from any prices.
ghost use Rattle.std.specs.Prelude.{◌≡◌, ◌+◌, ◌-◌, ◌<◌, ◌≤◌, IfOk, length};
ghost use Rattle.flow_model.specs.Instances.{IsInstance};

use crate::grain::grain_prices;
use crate::priced::solve_from;
use bound_base::NoMemory;
use flow_model::{Instance, OuterArc};
use flow_windows::Windows;
use std::alloc::Global;

/// At most this many blocks are solved first. With more of them most arcs of a long trace would be in many.
const MOST_BLOCKS: u32 = 64;

/// With fewer steps than this many blocks of the greatest first width there are at least this many blocks.
const FEWEST_BLOCKS: u32 = 16;

/// Where there are few blocks, the first ones have at most this many steps. Narrower ones cost more rounds than they save.
const FIRST_STEPS: u32 = 32768;

/// How many steps a block at least has. With fewer it would cost more to make than it saves.
const FEWEST_STEPS: u32 = 1024;

/// How many times as wide the blocks of the next level are.
const WIDER: u32 = 4;

// Writes the sums of the prices before each time, from the time `first` on.
fn write_sums(prices: &[u128], first: usize, past: usize, sums: &mut [u128])
    requires each { length sums.old ≡ length prices.now + 1 }
    requires within { past ≤ length prices.now }
    ensures { length sums.new ≡ length sums.old }
{
    for step in first..past {
        sums[step + 1] = sums[step].wrapping_add(prices[step]);
    }
}

// The part of the arc in the steps from `first` to the one before `past`, as steps counted from `first`. The prices of the
// other steps that it covers are taken from its cost.
fn part_of(arc: &OuterArc, first: u32, past: u32, sums: &[u128]) -> OuterArc
    requires within { (arc.now.start < length sums.now) × (arc.now.end < length sums.now) }
    requires block { first < length sums.now }
    ensures start { result.start ≤ past - first }
    ensures end { result.end ≤ past - first }
    ensures weight { result.weight ≡ arc.now.weight }
    ensures cost { result.cost ≤ arc.now.cost }
{
    let start = arc.start.max(first);
    let end = arc.end.min(past);
    let before = sums[start as usize].wrapping_sub(sums[arc.start as usize]);
    let after = sums[arc.end as usize].wrapping_sub(sums[end as usize]);
    OuterArc {
        start: start.min(past).saturating_sub(first),
        end: end.saturating_sub(first),
        weight: arc.weight,
        cost: arc.cost.saturating_sub(before.wrapping_add(after)),
    }
}

// The block of the steps from `first` to the one before `past`: the parts of the arcs of these numbers, but those whose cost
// the prices outside of it take whole. It takes 32 bytes for each part.
fn block_of(
    alloc: Global,
    instance: &Instance,
    numbers: &[u32],
    first: u32,
    past: u32,
    sums: &[u128],
) -> Result<Instance, NoMemory>
    requires block { (first ≤ past) × (past ≤ instance.now.steps) }
    requires few { length numbers.now ≤ length instance.now.arcs }
    requires each { length sums.now ≡ instance.now.steps + 1 }
    ensures { IfOk result (λ block. block.steps ≡ past - first) }
{
    let arcs = instance.arcs();
    let mut parts = Vec::new(alloc);
    for place in 0..numbers.len() {
        let number = numbers[place] as usize;
        if number < arcs.len() {
            let part = part_of(&arcs[number], first, past, sums);
            if part.start < part.end && part.cost > 0 {
                parts.push(part)?;
            }
        }
    }
    Ok(Instance::new(past - first, instance.units(), parts))
}

// Solves the block with the prices outside of it fixed, and takes its prices. It takes the memory of a solver of the block.
fn solve_block(
    alloc: Global,
    instance: &Instance,
    numbers: &[u32],
    first: u32,
    past: u32,
    sums: &[u128],
    prices: &mut [u128],
) -> Result<(), NoMemory>
    requires block { (first ≤ past) × (past ≤ instance.now.steps) }
    requires few { length numbers.now ≤ length instance.now.arcs }
    requires each { length sums.now ≡ instance.now.steps + 1 }
    requires each_price { length prices.old ≡ instance.now.steps }
    ensures { length prices.new ≡ length prices.old }
{
    let block = block_of(alloc, instance, numbers, first, past, sums)?;
    let own = prices[first as usize..past as usize].to_vec(alloc)?;
    let solution = solve_from(alloc, &block, own)?;
    prices[first as usize..past as usize].copy_from_slice(solution.prices());
    Ok(())
}

// Solves the blocks of that width from the first one on. Before each the sums are of the new prices, and after it of the
// old ones.
fn solve_level(
    alloc: Global,
    instance: &Instance,
    width: u32,
    sums: &mut [u128],
    prices: &mut [u128],
) -> Result<(), NoMemory>
    requires fits { IsInstance instance.now }
    requires width { (0 < width) × (width ≤ instance.now.steps) }
    requires each { length sums.old ≡ instance.now.steps + 1 }
    requires each_price { length prices.old ≡ instance.now.steps }
    ensures each { length sums.new ≡ length sums.old }
    ensures each_price { length prices.new ≡ length prices.old }
{
    let steps = instance.steps();
    write_sums(prices, 0, steps as usize, sums);
    let mut windows = Windows::new(alloc, instance, width)?;
    let mut first = 0;
    while windows.has_step() {
        let past = steps.min(first + width);
        solve_block(
            alloc,
            instance,
            windows.numbers(),
            first,
            past,
            sums,
            prices,
        )?;
        write_sums(prices, first as usize, past as usize, sums);
        windows.advance();
        first += width;
    }
    Ok(())
}

// How many steps the first blocks have.
fn first_width(steps: u32) -> u32
    ensures { 0 < result }
{
    let few = FIRST_STEPS.min(steps / FEWEST_BLOCKS);
    FEWEST_STEPS.max(few).max(steps / MOST_BLOCKS)
}

/// First prices of the instance: a constant price on some steps, then those of blocks, and then of blocks that are wider and
/// wider. The last are thirds of the steps, so that the ends of the blocks before lie within them.
pub(crate) fn first_prices(alloc: Global, instance: &Instance) -> Result<Vec<u128>, NoMemory>
    ensures { IfOk result (λ prices. length prices.items ≡ instance.now.steps) }
{
    let steps = instance.steps();
    let arcs = instance.arcs().len();
    let mut prices = grain_prices(alloc, instance)?;
    if steps / 2 < FEWEST_STEPS || arcs == 0 {
        return Ok(prices);
    }
    let mut sums = vec![in alloc; 0; steps as usize + 1]?;
    let mut width = first_width(steps);
    while width <= steps / 2 {
        solve_level(alloc, instance, width, &mut sums, &mut prices)?;
        width *= WIDER;
    }
    solve_level(alloc, instance, steps / 3 + 1, &mut sums, &mut prices)?;
    Ok(prices)
}
