//! Arcs that enter at the step at which they start.
ghost use Rattle.std.specs.Prelude.{◌≡◌, ℕ, ◌+◌, ◌<◌, length, slice_index, slice_set};
ghost use Rattle.flow_model.specs.Instances.{IsInstance, arc_at, load_at};
ghost use Rattle.flow_parts.specs.OuterEdges.{AreListed};
ghost use Rattle.flow_uniform.specs.Holdings.{IsHeld, EntersOne, Enter, holding_of};

use flow_model::Instance;
use flow_parts::{Heap, OuterEdges};

// Lets the arc of the number have its weight as flow.
fn hold(instance: &Instance, number: u32, heap: &mut Heap, flows: &mut [u64], leaving: &mut [u128])
    requires held { IsHeld instance.now (holding_of flows.old leaving.old heap.old) (length instance.now.arcs) }
    requires number { number < length instance.now.arcs }
    requires fresh { slice_index flows.old number ≡ 0 }
    ensures held { IsHeld instance.now (holding_of flows.new leaving.new heap.new) (length instance.now.arcs) }
    ensures flows { flows.new ≡ slice_set flows.old number (arc_at instance.now.arcs number).weight }
{
    let arc = instance.arcs()[number as usize];
    flows[number as usize] = arc.weight;
    leaving[arc.end as usize] += arc.weight as u128;
    heap.offer(number, (instance.steps() - arc.end) as u128);
}

// Lets the arc enter, and answers the flow that it has then.
fn enter_one(
    instance: &Instance,
    number: u32,
    heap: &mut Heap,
    flows: &mut [u64],
    leaving: &mut [u128],
) -> u64
    requires held { IsHeld instance.now (holding_of flows.old leaving.old heap.old) (length instance.now.arcs) }
    requires number { number < length instance.now.arcs }
    requires fresh { slice_index flows.old number ≡ 0 }
    ensures held { IsHeld instance.now (holding_of flows.new leaving.new heap.new) (length instance.now.arcs) }
    ensures enters { EntersOne instance.now.arcs number flows.old flows.new }
    ensures set { flows.new ≡ slice_set flows.old number result }
{
    let arc = instance.arcs()[number as usize];
    if arc.cost == 0 {
        return 0;
    }
    hold(instance, number, heap, flows, leaving);
    arc.weight
}

/// Lets the arcs that start at the step enter, and answers what they add to the load.
pub(crate) fn enter(
    instance: &Instance,
    edges: &OuterEdges,
    step: u32,
    heap: &mut Heap,
    flows: &mut [u64],
    leaving: &mut [u128],
) -> u128
    requires held { IsHeld instance.now (holding_of flows.old leaving.old heap.old) (length instance.now.arcs) }
    requires fits { IsInstance instance.now }
    requires edges { AreListed instance.now edges.now (length instance.now.arcs) }
    requires step { step < instance.now.steps }
    requires fresh { (i : ℕ) → i < length instance.now.arcs → (arc_at instance.now.arcs i).start ≡ step → slice_index flows.old i ≡ 0 }
    ensures held { IsHeld instance.now (holding_of flows.new leaving.new heap.new) (length instance.now.arcs) }
    ensures enter { Enter instance.now.arcs step flows.old flows.new }
    ensures load { load_at instance.now.arcs flows.old step + result ≡ load_at instance.now.arcs flows.new step }
{
    let mut more = 0;
    let mut left = edges.first(step);
    while left > 0 {
        let number = left - 1;
        more += enter_one(instance, number, heap, flows, leaving) as u128;
        left = edges.after(number);
    }
    more
}
