//! Arcs that lose flow at a step over which more is than fits.
ghost use Rattle.std.specs.Prelude.{◌≡◌, ◌+◌, ◌-◌, ◌<◌, ◌≤◌, None, length, slice_index, slice_set};
ghost use Rattle.flow_model.specs.Instances.{load_at};
ghost use Rattle.flow_parts.specs.Ranks.{rank_at};
ghost use Rattle.flow_uniform.specs.Cuts.{AreCuts};
ghost use Rattle.flow_uniform.specs.Holdings.{IsHeld, holding_of};

use flow_model::Instance;
use flow_parts::Heap;

// Takes this much of the flow of the arc that is out of the heap. It is put back if it has flow left.
fn lower(
    instance: &Instance,
    number: u32,
    amount: u64,
    heap: &mut Heap,
    flows: &mut [u64],
    leaving: &mut [u128],
)
    requires held { IsHeld instance.now (holding_of flows.old leaving.old heap.old) number }
    requires number { number < length instance.now.arcs }
    requires out { rank_at heap.old number ≡ None }
    requires amount { amount ≤ slice_index flows.old number }
    ensures held { IsHeld instance.now (holding_of flows.new leaving.new heap.new) (length instance.now.arcs) }
    ensures flows { flows.new ≡ slice_set flows.old number (slice_index flows.old number - amount) }
{
    let end = instance.arcs()[number as usize].end;
    let less = flows[number as usize] - amount;
    flows[number as usize] = less;
    leaving[end as usize] -= amount as u128;
    if less > 0 {
        heap.offer(number, (instance.steps() - end) as u128);
    }
}

/// Takes flow from the arcs over the step that end last, until the load fits. It answers the load.
pub(crate) fn evict(
    instance: &Instance,
    step: u32,
    load: u128,
    heap: &mut Heap,
    flows: &mut [u64],
    leaving: &mut [u128],
    cuts: &mut [u32],
) -> u128
    requires held { IsHeld instance.now (holding_of flows.old leaving.old heap.old) (length instance.now.arcs) }
    requires step { step < instance.now.steps }
    requires cuts { AreCuts instance.now flows.old cuts.old (step + 1) step }
    requires fresh { slice_index cuts.old step ≡ 0 }
    requires load { load ≡ load_at instance.now.arcs flows.old step }
    ensures held { IsHeld instance.now (holding_of flows.new leaving.new heap.new) (length instance.now.arcs) }
    ensures cuts { AreCuts instance.now flows.new cuts.new (step + 1) (step + 1) }
    ensures load { result ≡ load_at instance.now.arcs flows.new step }
{
    let units = instance.units() as u128;
    let mut load = load;
    while load > units {
        let Some(first) = heap.take_least() else {
            return load;
        };
        let number = first.0;
        let amount = (load - units).min(flows[number as usize] as u128) as u64;
        lower(instance, number, amount, heap, flows, leaving);
        cuts[step as usize] = instance.arcs()[number as usize].end;
        load -= amount as u128;
    }
    load
}
