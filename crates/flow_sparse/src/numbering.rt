//! The nodes of times.
ghost use Rattle.std.specs.Prelude.{◌≡◌, ℕ, ◌+◌, ◌<◌, ◌≤◌, ◌^◌, length, map, slice_index};
ghost use Rattle.flow_sparse.specs.Contractions.{AreFalls, IsNumbering, between, NeverRises, AreFallsOfOpen};

use flow_model::{Instance, OuterArc};

// Writes the node after the step, and the step if it is open. It answers how many steps are open so far.
fn number_step(
    opens: &[bool],
    step: usize,
    count: u32,
    nodes: &mut [u32],
    steps_of: &mut [u32],
) -> u32
    requires before { IsNumbering step opens.now nodes.old steps_of.old count }
    requires few { step < 2 ^ 25 }
    requires count { count ≤ step }
    requires step { step < length opens.now }
    requires each_time { step + 1 < length nodes.old }
    requires each_step { step < length steps_of.old }
    ensures { IsNumbering (step + 1) opens.now nodes.new steps_of.new result }
{
    if opens[step] {
        steps_of[count as usize] = step as u32;
        nodes[step + 1] = count + 1;
        return count + 1;
    }
    nodes[step + 1] = count;
    count
}

/// Numbers the nodes: it writes the node of each time, and the open steps in their order. It answers how many steps are open.
pub(crate) fn number(opens: &[bool], nodes: &mut [u32], steps_of: &mut [u32]) -> u32
    requires few { length opens.now ≤ 2 ^ 25 }
    requires each_time { length nodes.old ≡ length opens.now + 1 }
    requires each_step { length opens.now ≤ length steps_of.old }
    ensures numbers { IsNumbering (length opens.now) opens.now nodes.new steps_of.new result }
    ensures each_time { length nodes.new ≡ length nodes.old }
    ensures each_step { length steps_of.new ≡ length steps_of.old }
{
    let mut count = 0;
    nodes[0] = 0;
    for step in 0..opens.len() {
        count = number_step(opens, step, count, nodes, steps_of);
    }
    count
}

/// Writes the arcs between the nodes.
pub(crate) fn contract(instance: &Instance, nodes: &[u32], arcs: &mut [OuterArc])
    requires each_time { length nodes.now ≡ instance.now.steps + 1 }
    requires each_arc { length arcs.old ≡ length instance.now.arcs }
    ensures { arcs.new ≡ map (between nodes.now) instance.now.arcs }
{
    let from = instance.arcs();
    for place in 0..arcs.len() {
        let arc = from[place];
        arcs[place] = OuterArc {
            start: nodes[arc.start as usize],
            end: nodes[arc.end as usize],
            weight: arc.weight,
            cost: arc.cost,
        };
    }
}

/// Writes the price of each step: the fall of the potential between the nodes of its times.
pub(crate) fn write_prices(nodes: &[u32], potentials: &[u128], prices: &mut [u128])
    requires each_time { length nodes.now ≡ length prices.old + 1 }
    requires within { (t : ℕ) → t < length nodes.now → slice_index nodes.now t < length potentials.now }
    requires falls { NeverRises (length prices.old) nodes.now potentials.now }
    ensures falls { AreFalls (length prices.old) nodes.now potentials.now prices.new }
    ensures each_step { length prices.new ≡ length prices.old }
{
    for step in 0..prices.len() {
        prices[step] = potentials[nodes[step] as usize] - potentials[nodes[step + 1] as usize];
    }
}

/// Writes the potentials of the nodes, so that each step's price is their fall over it.
pub(crate) fn write_potentials(
    count: u32,
    steps_of: &[u32],
    prices: &[u128],
    potentials: &mut [u128],
)
    requires few { count ≤ 2 ^ 25 }
    requires each_node { count < length potentials.old }
    requires each_step { count ≤ length steps_of.now }
    requires within { (k : ℕ) → k < count → slice_index steps_of.now k < length prices.now }
    requires small { (t : ℕ) → t < length prices.now → slice_index prices.now t ≤ 2 ^ 97 }
    ensures last { slice_index potentials.new count ≡ 2 ^ 123 }
    ensures falls { AreFallsOfOpen count steps_of.now prices.now potentials.new }
    ensures each { length potentials.new ≡ length potentials.old }
{
    let mut high = 1 << 123;
    potentials[count as usize] = high;
    for node in (0..count as usize).rev() {
        high += prices[steps_of[node] as usize];
        potentials[node] = high;
    }
}
