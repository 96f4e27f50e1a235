//! Loads of steps, added to and asked over ranges of steps.
ghost use Rattle.std.specs.Prelude.{◌≡◌, ◌<◌, ◌≤◌, ◌^◌, length, replicate, IfOk};
ghost use Rattle.load_tree.specs.Ranges.{AddsOver, HasRoom, IsGreatest};
ghost use Rattle.load_tree.specs.Trees.{no_node};

use crate::tree::{self, Node, shape_of};
use bound_base::NoMemory;
use std::alloc::Global;
use std::marker::Model;

/// The load of each step, in bytes. Steps count from 0. It takes some 20 bytes for each step.
#[derive(Debug, Drop)]
pub struct Loads {
    nodes: Vec<Node>,
    loads: Vec<u128>,
    height: u32,
}

impl Model for Loads {
    ghost use Rattle.std.specs.Prelude.{ℕ, List, length, All, ◌<◌, ◌≤◌, ◌^◌};
    ghost use Rattle.load_tree.specs.Trees.{IsTree, loads_of};

    ghost Value = { List ℕ };

    ghost view = { λ l. loads_of l.height l.nodes.items l.loads.items };

    ghost invariant = { λ l.
        (length l.loads.items < 2 ^ 32)
        × IsTree l.height l.nodes.items l.loads.items
        × All (λ load. load ≤ 2 ^ 100) (loads_of l.height l.nodes.items l.loads.items) };
}

// Nodes to whose ranges nothing was added.
fn no_nodes(alloc: Global, count: usize) -> Result<Vec<Node>, NoMemory>
    ensures { IfOk result (λ nodes. nodes.items ≡ replicate count no_node) }
{
    Ok(vec![in alloc; Node { added: 0, most: 0 }; count]?)
}

// A load of 0 for each step.
fn no_loads(alloc: Global, steps: u32) -> Result<Vec<u128>, NoMemory>
    ensures { IfOk result (λ loads. loads.items ≡ replicate steps 0) }
{
    Ok(vec![in alloc; 0; steps as usize]?)
}

impl Loads {
    /// One load for each step, all 0.
    pub fn new(alloc: Global, steps: u32) -> Result<Loads, NoMemory>
        ensures { IfOk result (λ loads. loads ≡ replicate steps 0) }
    {
        let shape = shape_of(steps);
        Ok(Loads {
            nodes: no_nodes(alloc, shape.nodes)?,
            loads: no_loads(alloc, steps)?,
            height: shape.height,
        })
    }

    /// Adds the amount to each step from `from` to the one before `to`. Takes time in the logarithm of the number of
    /// all steps.
    pub fn add(&mut self, from: u32, to: u32, amount: u64)
        requires order { from < to }
        requires within { to ≤ length self.old }
        requires room { HasRoom self.old from to amount }
        ensures { AddsOver self.old self.new from to amount }
    {
        tree::add(
            &mut self.nodes,
            &mut self.loads,
            self.height,
            from as usize,
            to as usize,
            u128::from(amount),
        );
    }

    /// The greatest load of the steps from `from` to the one before `to`. Takes time in the logarithm of the number of
    /// all steps.
    pub fn max(&self, from: u32, to: u32) -> u128
        requires order { from < to }
        requires within { to ≤ length self.now }
        ensures greatest { IsGreatest self.now from to result }
        ensures small { result ≤ 2 ^ 100 }
    {
        tree::max(
            &self.nodes,
            &self.loads,
            self.height,
            from as usize,
            to as usize,
        )
    }
}
