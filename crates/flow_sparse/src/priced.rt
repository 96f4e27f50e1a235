//! A solution that is found from first prices.
ghost use Rattle.std.specs.Prelude.{◌≡◌, ◌+◌, IfOk, length};
ghost use Rattle.flow_model.specs.Instances.{IsInstance, IsSolution};
ghost use Rattle.flow_sparse.specs.Contractions.{IsSized};
ghost use Rattle.flow_sparse.specs.Rooms.{HasRoom};

use crate::network::Network;
use crate::rounds::{Workspace, run_rounds};
use bound_base::NoMemory;
use flow_model::{Instance, OuterArc, Solution};
use std::alloc::Global;

// A network with room for the arcs of the instance.
fn network_of(alloc: Global, instance: &Instance) -> Result<Network, NoMemory>
    ensures sized { IfOk result (IsSized instance.now) }
    ensures fits { IfOk result (λ network. IsInstance instance.now) }
{
    let count = instance.arcs().len();
    let none = OuterArc {
        start: 0,
        end: 0,
        weight: 0,
        cost: 0,
    };
    let arcs = vec![in alloc; none; count]?;
    let outer = vec![in alloc; 0; count]?;
    Ok(Network {
        arcs,
        units: instance.units(),
        count: 0,
        outer,
        inner: Vec::new(alloc),
        potentials: Vec::new(alloc),
        excess: Vec::new(alloc),
        deficit: Vec::new(alloc),
    })
}

// What the rounds work on, with these prices, no step open and no load.
fn workspace_of(
    alloc: Global,
    instance: &Instance,
    prices: Vec<u128>,
) -> Result<Workspace, NoMemory>
    ensures fits { IfOk result (λ work. IsInstance instance.now) }
    ensures room { IfOk result (λ work. HasRoom instance.now work.network (length work.nodes.items) (length work.steps_of.items)) }
    ensures each_open { IfOk result (λ work. length work.opens.items ≡ instance.now.steps) }
    ensures each_start { IfOk result (λ work. length work.loads.items ≡ instance.now.steps + 1) }
    ensures prices { IfOk result (λ work. work.prices ≡ prices) }
{
    let steps = instance.steps() as usize;
    let network = network_of(alloc, instance)?;
    let opens = vec![in alloc; false; steps]?;
    let nodes = vec![in alloc; 0; steps + 1]?;
    let steps_of = vec![in alloc; 0; steps]?;
    let loads = vec![in alloc; 0; steps + 1]?;
    Ok(Workspace {
        opens,
        loads,
        prices,
        nodes,
        steps_of,
        network,
    })
}

/// A solution of the instance, found from these prices: the nearer they are to those of a solution, the sooner. It takes 41
/// bytes for each step, 40 for each arc, 16 for each edge with room, and 132 for each step that has a price or is opened.
pub(crate) fn solve_from(
    alloc: Global,
    instance: &Instance,
    prices: Vec<u128>,
) -> Result<Solution, NoMemory>
    requires { length prices.items ≡ instance.now.steps }
    ensures { IfOk result (λ solution. IsSolution instance.now solution.prices solution.flows) }
{
    let mut work = workspace_of(alloc, instance, prices)?;
    run_rounds(alloc, instance, &mut work)?;
    let Workspace {
        prices,
        network,
        ..
    } = work;
    Ok(Solution::new(prices, network.into_flows()))
}
