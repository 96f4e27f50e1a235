//! The loads of steps, and the excess and the deficit that they leave at nodes.
ghost use Rattle.std.specs.Prelude.{◌≡◌, ℕ, ◌+◌, ◌-◌, ◌<◌, ◌≤◌, ◌^◌, min, length, slice_index, slice_set};
ghost use Rattle.flow_model.specs.Instances.{IsInstance, load_at};
ghost use Rattle.flow_sparse.specs.Loads.{AreBalanced, HaveLoads, AreChanges};

use flow_model::Instance;

/// What stands for a load that neither rises nor falls, so that no number is below 0 where loads fall.
const LEVEL: u128 = 1 << 100;

// Lets no load rise or fall.
fn level(changes: &mut [u128])
    ensures levels { (t : ℕ) → t < length changes.old → slice_index changes.new t ≡ 2 ^ 100 }
    ensures each { length changes.new ≡ length changes.old }
{
    for place in 0..changes.len() {
        changes[place] = LEVEL;
    }
}

// Lets the load rise by the flow of each arc at its start, and fall by it at its end.
fn add_changes(instance: &Instance, flows: &[u64], changes: &mut [u128])
    requires each_arc { length flows.now ≡ length instance.now.arcs }
    requires small { (i : ℕ) → i < length flows.now → slice_index flows.now i ≤ 2 ^ 48 }
    requires each { length changes.old ≡ instance.now.steps + 1 }
    requires levels { (t : ℕ) → t < length changes.old → slice_index changes.old t ≡ 2 ^ 100 }
    ensures changes { AreChanges instance.now flows.now changes.new }
    ensures each { length changes.new ≡ length changes.old }
{
    let arcs = instance.arcs();
    for number in 0..flows.len() {
        let arc = arcs[number];
        let flow = flows[number] as u128;
        changes[arc.start as usize] += flow;
        changes[arc.end as usize] -= flow;
    }
}

// Turns the change of the load at each step into the load.
fn sum_up(instance: &Instance, flows: &[u64], loads: &mut [u128])
    requires fits { IsInstance instance.now }
    requires each_arc { length flows.now ≡ length instance.now.arcs }
    requires small { (i : ℕ) → i < length flows.now → slice_index flows.now i ≤ 2 ^ 48 }
    requires each_start { length loads.old ≡ instance.now.steps + 1 }
    requires changes { AreChanges instance.now flows.now loads.old }
    ensures loads { (t : ℕ) → t < instance.now.steps → slice_index loads.new t ≡ load_at instance.now.arcs flows.now t }
    ensures each { length loads.new ≡ length loads.old }
{
    let mut load = 0;
    for step in 0..instance.steps() as usize {
        load = load + loads[step] - LEVEL;
        loads[step] = load;
    }
}

/// Writes the load of each step.
pub(crate) fn write_loads(instance: &Instance, flows: &[u64], loads: &mut [u128])
    requires fits { IsInstance instance.now }
    requires each_arc { length flows.now ≡ length instance.now.arcs }
    requires small { (i : ℕ) → i < length flows.now → slice_index flows.now i ≤ 2 ^ 48 }
    requires each_start { length loads.old ≡ instance.now.steps + 1 }
    ensures loads { (t : ℕ) → t < instance.now.steps → slice_index loads.new t ≡ load_at instance.now.arcs flows.now t }
    ensures each { length loads.new ≡ length loads.old }
{
    level(loads);
    add_changes(instance, flows, loads);
    sum_up(instance, flows, loads);
}

// What flows beside the arcs over an open step: none if it has a price.
fn beside(load: u128, price: u128, units: u64) -> u128
    ensures shut { 0 < result → price ≡ 0 }
    ensures small { result ≤ units }
{
    if price > 0 || load > units as u128 {
        return 0;
    }
    units as u128 - load
}

// Writes the excess and the deficit of a node, one of which is 0: by how much the one number is greater than the other.
fn put(node: usize, more: u128, less: u128, excess: &mut [u128], deficit: &mut [u128])
    requires { (node < length excess.old) × (node < length deficit.old) }
    ensures excess { excess.new ≡ slice_set excess.old node (more - min more less) }
    ensures deficit { deficit.new ≡ slice_set deficit.old node (less - min more less) }
{
    let both = more.min(less);
    excess[node] = more - both;
    deficit[node] = less - both;
}

/// Writes what flows beside the arcs over the open steps, and the excess and the deficit of the nodes.
pub(crate) fn balance(
    count: u32,
    units: u64,
    steps_of: &[u32],
    loads: &[u128],
    prices: &[u128],
    inner: &mut [u128],
    excess: &mut [u128],
    deficit: &mut [u128],
)
    requires few { count ≤ 2 ^ 25 }
    requires units { units ≤ 2 ^ 56 }
    requires each_step { (count ≤ length steps_of.now) × (count ≤ length inner.old) }
    requires each_node { (count < length excess.old) × (count < length deficit.old) }
    requires within { HaveLoads count steps_of.now loads.now prices.now }
    requires small { (k : ℕ) → k < count → slice_index loads.now (slice_index steps_of.now k) ≤ 2 ^ 74 }
    ensures balanced { AreBalanced count units steps_of.now loads.now prices.now inner.new excess.new deficit.new }
    ensures inner { length inner.new ≡ length inner.old }
    ensures excess { length excess.new ≡ length excess.old }
    ensures deficit { length deficit.new ≡ length deficit.old }
{
    let mut more = 0;
    let mut less = 0;
    for node in 0..count as usize {
        let step = steps_of[node] as usize;
        let room = beside(loads[step], prices[step], units);
        let total = loads[step] + room;
        let passes = total.saturating_sub(units as u128);
        let lacks = (units as u128).saturating_sub(total);
        inner[node] = room;
        put(node, passes + less, lacks + more, excess, deficit);
        more = passes;
        less = lacks;
    }
    put(count as usize, less, more, excess, deficit);
}
