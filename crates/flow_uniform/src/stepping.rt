//! The steps from the first to the last, as arcs leave, enter and lose flow.
ghost use Rattle.std.specs.Prelude.{◌≡◌, ℕ, length, slice_index};
ghost use Rattle.flow_model.specs.Instances.{IsInstance};
ghost use Rattle.flow_parts.specs.OuterEdges.{AreListed};
ghost use Rattle.flow_uniform.specs.Cuts.{AreCuts};
ghost use Rattle.flow_uniform.specs.Holdings.{IsHeld, holding_of};

use crate::entering::enter;
use crate::evicting::evict;
use flow_model::Instance;
use flow_parts::{Heap, OuterEdges};

/// Finds the flows, and for each step the least end of the arcs that lost flow there, or 0.
pub(crate) fn sweep(
    instance: &Instance,
    edges: &OuterEdges,
    heap: &mut Heap,
    flows: &mut [u64],
    leaving: &mut [u128],
    cuts: &mut [u32],
)
    requires fits { IsInstance instance.now }
    requires held { IsHeld instance.now (holding_of flows.old leaving.old heap.old) (length instance.now.arcs) }
    requires edges { AreListed instance.now edges.now (length instance.now.arcs) }
    requires unused { (i : ℕ) → slice_index flows.old i ≡ 0 }
    requires each_step { length cuts.old ≡ instance.now.steps }
    requires uncut { (t : ℕ) → slice_index cuts.old t ≡ 0 }
    ensures { AreCuts instance.now flows.new cuts.new instance.now.steps instance.now.steps }
{
    let mut load = 0;
    for step in 0..instance.steps() {
        load -= leaving[step as usize];
        load += enter(instance, edges, step, heap, flows, leaving);
        load = evict(instance, step, load, heap, flows, leaving, cuts);
    }
}
