//! The solver of an instance with one cost.
ghost use Rattle.std.specs.Prelude.{◌≡◌, ◌<◌, IfOk};
ghost use Rattle.flow_model.specs.Instances.{IsSolution};
ghost use Rattle.flow_uniform.specs.Uniform.{IsUniform};

use crate::choosing::choose;
use crate::stepping::sweep;
use bound_base::NoMemory;
use flow_model::{Instance, Solution};
use flow_parts::{Heap, OuterEdges};
use std::alloc::Global;
use std::marker::Model;

/// A solver of one instance, with all the memory that it needs.
#[derive(Drop)]
pub struct Solver<'a> {
    instance: &'a Instance,
    cost: u128,
    edges: OuterEdges,
    heap: Heap,
    flows: Vec<u64>,
    leaving: Vec<u128>,
    cuts: Vec<u32>,
    prices: Vec<u128>,
}

impl<'a> Model for Solver<'a> {
    ghost use Rattle.flow_model.specs.Instances.{Instance as Chain};
    ghost use Rattle.flow_uniform.specs.Holdings.{holding_of};
    ghost use Rattle.flow_uniform.specs.Starts.{IsAtStart};

    ghost Value = { Chain };

    ghost view = { λ s. s.instance.now };

    ghost invariant = { λ s. IsAtStart s.instance.now s.cost s.edges (holding_of s.flows.items s.leaving.items s.heap) s.cuts.items s.prices.items };
}

impl<'a> Solver<'a> {
    /// A solver of the instance, whose arcs cost nothing or the one cost. It takes all memory that is needed: 40 bytes for
    /// each step, and 36 for each arc.
    pub fn new(alloc: Global, instance: &'a Instance, cost: u128) -> Result<Solver<'a>, NoMemory>
        requires dear { 0 < cost }
        requires uniform { IsUniform cost instance.now.arcs }
        ensures { IfOk result (λ solver. solver ≡ instance.now) }
    {
        let arcs = instance.arcs();
        let steps = instance.steps() as usize;
        let edges = OuterEdges::of_arcs(alloc, instance)?;
        let flows = vec![in alloc; 0; arcs.len()]?;
        let leaving = vec![in alloc; 0; steps + 1]?;
        let cuts = vec![in alloc; 0; steps]?;
        let prices = vec![in alloc; 0; steps]?;
        let heap = Heap::new(alloc, arcs.len() as u32)?;
        Ok(Solver {
            instance,
            cost,
            edges,
            heap,
            flows,
            leaving,
            cuts,
            prices,
        })
    }

    /// Finds the flows step by step, and then prices of the same value. It takes no memory, and time in the number of steps
    /// and of arcs, times the logarithm of that.
    pub fn solve(self) -> Solution
        ensures { IsSolution self.entry result.prices result.flows }
    {
        let Solver {
            instance,
            cost,
            edges,
            mut heap,
            mut flows,
            mut leaving,
            mut cuts,
            mut prices,
        } = self;
        sweep(
            instance,
            &edges,
            &mut heap,
            &mut flows,
            &mut leaving,
            &mut cuts,
        );
        let _ = choose(cost, &cuts, &mut prices);
        Solution::new(prices, flows)
    }
}
