//! One constant price on some steps.
ghost use Rattle.std.specs.Prelude.{◌≡◌, ◌≤◌, ◌^◌, IfOk, length};

use bound_base::NoMemory;
use flow_model::{Instance, OuterArc};
use std::alloc::Global;

/// About this many steps have a price, one of each grain of steps.
const GRAINS: usize = 512;

/// A grain has at least this many steps, or all that there are.
const FEWEST_STEPS: usize = 16;

/// A grain has at most this many steps.
const MOST_STEPS: usize = 1024;

// What one unit of the arc earns for each step, times 2^25, rounded down.
fn earning_of(arc: &OuterArc) -> u128 {
    let steps = arc.end.saturating_sub(arc.start).max(1);
    arc.cost.saturating_mul(1 << 25) / steps as u128
}

// The units of the arc, times the steps that it covers.
fn room_of(arc: &OuterArc) -> u128 {
    (arc.weight as u128).saturating_mul(arc.end.saturating_sub(arc.start) as u128)
}

// The numbers of the arcs, with what they earn, those first that earn least.
fn order_of(alloc: Global, arcs: &[OuterArc]) -> Result<Vec<(u128, u32)>, NoMemory>
    requires { length arcs.now ≤ 2 ^ 26 }
{
    let mut order = Vec::with_capacity(alloc, arcs.len())?;
    for number in 0..arcs.len() {
        order.push((earning_of(&arcs[number]), number as u32))?;
    }
    order.sort_unstable();
    Ok(order)
}

// What the arc earns, times 2^25, at which the units of all steps are used up when those that earn most come first.
fn marginal(alloc: Global, instance: &Instance) -> Result<u128, NoMemory> {
    let arcs = instance.arcs();
    let order = order_of(alloc, arcs)?;
    let mut left = (instance.units() as u128).saturating_mul(instance.steps() as u128);
    for place in (0..order.len()).rev() {
        let (earning, number) = order[place];
        if let Some(arc) = arcs.get(number as usize) {
            let room = room_of(arc);
            if room > left {
                return Ok(earning);
            }
            left -= room;
        }
    }
    Ok(0)
}

/// A price for each step: the step in the middle of each grain has the price of the whole grain, and the others have none.
pub(crate) fn grain_prices(alloc: Global, instance: &Instance) -> Result<Vec<u128>, NoMemory>
    ensures { IfOk result (λ prices. length prices.items ≡ instance.now.steps) }
{
    let steps = instance.steps() as usize;
    let mut prices = vec![in alloc; 0; steps]?;
    let grain = (steps / GRAINS)
        .max(FEWEST_STEPS)
        .min(MOST_STEPS)
        .min(steps);
    let price = marginal(alloc, instance)?.saturating_mul(grain as u128) >> 25;
    for step in 0..steps {
        if step % grain == grain / 2 {
            prices[step] = price;
        }
    }
    Ok(prices)
}
