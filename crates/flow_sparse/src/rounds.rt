//! Rounds: in each steps open and the network of the open steps is repaired, until all steps fit.
ghost use Rattle.std.specs.Prelude.{◌≡◌, ℕ, ◌+◌, ◌<◌, ◌≤◌, ◌^◌, IfOk, IsTrue, length, slice_index};
ghost use Rattle.flow_model.specs.Instances.{IsInstance, IsSolution, load_at};
ghost use Rattle.flow_sparse.specs.Contractions.{AreOpen, IsSlack};
ghost use Rattle.flow_sparse.specs.Openings.{Opens, shut_steps, ShutStepsFit};
ghost use Rattle.flow_sparse.specs.Rooms.{HasRoom, IsAtRest};

use crate::lists::EdgeLists;
use crate::network::Network;
use crate::numbering::number;
use crate::opening::open_fullest;
use crate::repairing::repair;
use crate::search::Search;
use crate::starting::{cut_prices, open_priced, write_falls};
use bound_base::NoMemory;
use flow_model::{Edge, Instance};
use std::alloc::Global;

/// What the rounds work on: which steps are open, the load and the price of each step, the node of each time, the open steps
/// in their order, and the network of the open steps. The lists take 41 bytes for each step.
#[derive(Drop)]
pub(crate) struct Workspace {
    pub opens: Vec<bool>,
    pub loads: Vec<u128>,
    pub prices: Vec<u128>,
    pub nodes: Vec<u32>,
    pub steps_of: Vec<u32>,
    pub network: Network,
}

// One round: makes prices and flows suit each other where the flags say which steps are open. Each of these then carries at
// most the units, and all of them if it has a price. It takes memory for the nodes between the open steps and for the edges
// with room, and gives it back.
fn run_round(alloc: Global, instance: &Instance, work: &mut Workspace) -> Result<(), NoMemory>
    requires fits { IsInstance instance.now }
    requires room { HasRoom instance.now work.old.network (length work.old.nodes.items) (length work.old.steps_of.items) }
    requires each { length work.old.opens.items ≡ instance.now.steps }
    requires slack { IsSlack instance.now work.old.prices.items work.old.network.flows.outer }
    requires shut { AreOpen work.old.opens.items work.old.prices.items }
    requires small { (t : ℕ) → t < instance.now.steps → slice_index work.old.prices.items t ≤ 2 ^ 97 }
    requires each_load { instance.now.steps ≤ length work.old.loads.items }
    requires loads { (t : ℕ) → t < instance.now.steps
        → slice_index work.old.loads.items t ≡ load_at instance.now.arcs work.old.network.flows.outer t }
    ensures room { IfOk result (λ done. HasRoom instance.now work.new.network (length work.new.nodes.items) (length work.new.steps_of.items)) }
    ensures rests { IfOk result (λ done. IsAtRest instance.now work.new.opens.items work.new.prices.items work.new.network.flows.outer) }
    ensures same { work.new.opens ≡ work.old.opens }
    ensures loads { work.new.loads ≡ work.old.loads }
{
    let count = number(&work.opens, &mut work.nodes, &mut work.steps_of);
    work.network.make_room(alloc, count)?;
    let mut search = Search::new(alloc, count)?;
    let mut path = vec![in alloc; Edge::Inner(0); count as usize]?;
    work.network.open(
        instance,
        &work.opens,
        &work.loads,
        &work.prices,
        &work.nodes,
        &work.steps_of,
        count,
    );
    let mut lists = EdgeLists::new(alloc, &work.network)?;
    repair(&mut work.network, &mut lists, &mut search, &mut path)?;
    work.network.write_prices(&work.nodes, &mut work.prices);
    Ok(())
}

// Opens steps over which more flows than fits, and answers whether there are any.
fn open_more(instance: &Instance, network: &Network, opens: &mut [bool], loads: &mut [u128]) -> bool
    requires fits { IsInstance instance.now }
    requires each { length opens.old ≡ instance.now.steps }
    requires each_arc { length network.now.flows.outer ≡ length instance.now.arcs }
    requires small { (i : ℕ) → i < length network.now.flows.outer → slice_index network.now.flows.outer i ≤ 2 ^ 48 }
    requires each_start { length loads.old ≡ instance.now.steps + 1 }
    ensures opens { Opens opens.old opens.new }
    ensures less { IsTrue result → shut_steps opens.new < shut_steps opens.old }
    ensures same { (IsTrue result → ⊥) → opens.new ≡ opens.old }
    ensures fit { (IsTrue result → ⊥)
        → ShutStepsFit instance.now.steps instance.now.units (load_at instance.now.arcs network.now.flows.outer) opens.new }
    ensures loads { (t : ℕ) → t < instance.now.steps → slice_index loads.new t ≡ load_at instance.now.arcs network.now.flows.outer t }
    ensures each_start { length loads.new ≡ length loads.old }
{
    network.write_loads(instance, loads);
    open_fullest(instance.units(), loads, opens)
}

// Opens steps and repairs, until no step is over which more flows than fits.
fn open_all(alloc: Global, instance: &Instance, work: &mut Workspace) -> Result<(), NoMemory>
    requires fits { IsInstance instance.now }
    requires room { HasRoom instance.now work.old.network (length work.old.nodes.items) (length work.old.steps_of.items) }
    requires rests { IsAtRest instance.now work.old.opens.items work.old.prices.items work.old.network.flows.outer }
    requires each_start { length work.old.loads.items ≡ instance.now.steps + 1 }
    ensures { IfOk result (λ done. IsSolution instance.now work.new.prices.items work.new.network.flows.outer) }
{
    while open_more(instance, &work.network, &mut work.opens, &mut work.loads) {
        run_round(alloc, instance, work)?;
    }
    Ok(())
}

/// Begins with prices: opens the steps that have one, and lets the flows suit them. Then rounds follow, until prices and flows
/// are a solution.
pub(crate) fn run_rounds(
    alloc: Global,
    instance: &Instance,
    work: &mut Workspace,
) -> Result<(), NoMemory>
    requires fits { IsInstance instance.now }
    requires room { HasRoom instance.now work.old.network (length work.old.nodes.items) (length work.old.steps_of.items) }
    requires each_step { length work.old.prices.items ≡ instance.now.steps }
    requires each_open { length work.old.opens.items ≡ instance.now.steps }
    requires each_start { length work.old.loads.items ≡ instance.now.steps + 1 }
    ensures { IfOk result (λ done. IsSolution instance.now work.new.prices.items work.new.network.flows.outer) }
{
    cut_prices(&mut work.prices);
    open_priced(&work.prices, &mut work.opens);
    write_falls(&work.prices, &mut work.loads);
    work.network.fit(instance, &work.loads);
    work.network.write_loads(instance, &mut work.loads);
    run_round(alloc, instance, work)?;
    open_all(alloc, instance, work)
}
