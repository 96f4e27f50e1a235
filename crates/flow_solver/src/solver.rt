//! The solver of an instance.
ghost use Rattle.std.specs.Prelude.{◌≡◌, IfOk, length, slice_index};
ghost use Rattle.flow_model.specs.Instances.{IsSolution};
ghost use Rattle.flow_model.specs.Networks.{ArePrices};
ghost use Rattle.flow_network.specs.States.{IsState, no_flows};
ghost use Rattle.flow_solver.specs.Searches.{IsReady};

use crate::onward::DeadEnds;
use crate::rounds::augment;
use crate::search::Search;
use bound_base::NoMemory;
use flow_model::{Instance, Solution};
use flow_network::{Edge, Network};
use flow_parts::OuterEdges;
use std::alloc::Global;
use std::marker::Model;

/// No arc costs more.
const COST_LIMIT: u128 = 1 << 97;

/// A solver of one instance, with all the memory that it needs.
#[derive(Drop)]
pub struct Solver<'a> {
    network: Network<'a>,
    edges: OuterEdges,
    search: Search,
    dead: DeadEnds,
    path: Vec<Edge>,
}

impl<'a> Model for Solver<'a> {
    ghost use Rattle.std.specs.Prelude.{length};
    ghost use Rattle.flow_model.specs.Instances.{Instance as Chain};
    ghost use Rattle.flow_solver.specs.Starts.{IsAtStart};

    ghost Value = { Chain };

    ghost view = { λ s. s.network.instance };

    ghost invariant = { λ s. IsAtStart s.network s.edges s.search s.dead (length s.path.items) };
}

// Sets potentials so steep that no arc earns more than they fall.
fn set_slope(network: &mut Network)
    requires fits { IsState network.old }
    requires unused { network.old.flows ≡ no_flows network.old.instance }
    ensures ready { IsReady network.new }
    ensures same { network.new ≡ record network.old { potentials = network.new.potentials } }
{
    let steps = network.instance().steps();
    for node in 0..steps + 1 {
        network.set_potential(node, (steps - node) as u128 * COST_LIMIT);
    }
}

// Writes the fall of the potential over each step.
fn write_prices(network: &Network, prices: &mut [u128])
    requires ready { IsReady network.now }
    requires each_step { length prices.old ≡ network.now.instance.steps }
    ensures { ArePrices (slice_index network.now.potentials) prices.new }
{
    for (step, price) in prices.iter_mut().enumerate() {
        *price = network.potential(step as u32) - network.potential(step as u32 + 1);
    }
}

impl<'a> Solver<'a> {
    /// A solver of the instance. It takes all memory that is needed: 69 bytes for each step, and 16 for each arc.
    pub fn new(alloc: Global, instance: &'a Instance) -> Result<Solver<'a>, NoMemory>
        ensures { IfOk result (λ solver. solver ≡ instance.now) }
    {
        let steps = instance.steps();
        let path = vec![in alloc; Edge::Inner(0); steps as usize]?;
        let dead = DeadEnds::new(alloc, steps)?;
        let edges = OuterEdges::new(alloc, instance)?;
        let mut network = Network::new(alloc, instance)?;
        set_slope(&mut network);
        let search = Search::new(alloc, steps)?;
        Ok(Solver {
            network,
            edges,
            search,
            dead,
            path,
        })
    }

    /// Pushes all units, and reads off prices and flows of one value. It takes no memory.
    pub fn solve(self) -> Solution
        ensures { IsSolution self.entry result.prices result.flows }
    {
        let Solver {
            mut network,
            edges,
            mut search,
            mut dead,
            mut path,
        } = self;
        while network.left() > 0 {
            augment(&mut network, &edges, &mut search, &mut dead, &mut path);
        }
        let mut prices = search.into_distances();
        let _ = prices.pop();
        write_prices(&network, &mut prices);
        Solution::new(prices, network.into_flows())
    }
}
