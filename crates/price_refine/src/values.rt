//! The value of an instance at prices.
ghost use Rattle.std.specs.Prelude.{◌≡◌, ◌+◌, ◌-◌, ◌*◌, ◌<◌, ◌≤◌, ◌^◌, All, IfOk, length, sum, slice_range};
ghost use Rattle.flow_model.specs.Instances.{value_at};

use crate::pricing::sums_of;
use bound_base::NoMemory;
use flow_model::{Instance, OuterArc};
use std::alloc::Global;

// What the weight of an arc earns above the price of its steps.
fn surplus_of(arc: &OuterArc, price: u128) -> u128
    requires worth { arc.now.weight * arc.now.cost ≤ 2 ^ 96 }
    ensures { result ≡ arc.now.weight * arc.now.cost - arc.now.weight * price }
{
    let weight = arc.weight as u128;
    match weight.checked_mul(price) {
        Some(price) => (weight * arc.cost).saturating_sub(price),
        None => 0,
    }
}

/// The value of the instance at the prices, one for each of its steps. It takes 16 bytes for each step.
pub(crate) fn value_at(
    alloc: Global,
    instance: &Instance,
    prices: &[u128],
) -> Result<u128, NoMemory>
    requires each_step { length prices.now ≡ instance.now.steps }
    requires paid { instance.now.units * sum prices.now ≤ 2 ^ 126 }
    requires worths { All (λ arc. arc.weight * arc.cost ≤ 2 ^ 96) instance.now.arcs }
    ensures { IfOk result (λ v. v ≡ value_at instance.now prices.now) }
{
    let arcs = instance.arcs();
    let sums = sums_of(alloc, prices)?;
    let mut value = instance.units() as u128 * sums[prices.len()];
    for arc in arcs {
        value += surplus_of(arc, sums[arc.end as usize] - sums[arc.start as usize]);
    }
    Ok(value)
}
