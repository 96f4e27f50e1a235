//! The outer edges that lead out of each node.
ghost use Rattle.std.specs.Prelude.{◌≡◌, ◌*◌, ◌<◌, ◌≤◌, ◌^◌, IfOk, length, slice_index};
ghost use Rattle.flow_parts.specs.OuterEdges.{AreListed, edge_of, tail_of, one_more};

use bound_base::NoMemory;
use flow_model::{Edge, Instance, OuterArc};
use std::alloc::Global;
use std::marker::Model;

/// The outer edges that lead out of each node, as lists. They are numbered: first come the arcs, and then their back
/// edges. In the lists numbers count from 1, and 0 is the end.
#[derive(Drop)]
pub struct OuterEdges {
    first: Vec<u32>,
    next: Vec<u32>,
}

impl Model for OuterEdges {
    ghost use Rattle.flow_parts.specs.OuterEdges.{Lists};

    ghost Value = { Lists };

    ghost view = { λ e. record { first = e.first.items; next = e.next.items } };
}

/// The edge of that number, if there are this many arcs.
#[inline(always)]
pub fn outer_edge(arcs: u32, number: u32) -> Edge
    ensures { result ≡ edge_of arcs number }
{
    if number < arcs {
        Edge::Outer(number)
    } else {
        Edge::OuterBack(number - arcs)
    }
}

// The node that the edge of that number leads out of.
fn tail_at(arcs: &[OuterArc], number: u32) -> u32
    requires { number < 2 * length arcs.now }
    ensures { result ≡ tail_of arcs.now number }
{
    let number = number as usize;
    if number < arcs.len() {
        arcs[number].start
    } else {
        arcs[number - arcs.len()].end
    }
}

impl OuterEdges {
    /// The lists of all outer edges. They take 4 bytes for each step and 8 for each arc.
    pub fn new(alloc: Global, instance: &Instance) -> Result<OuterEdges, NoMemory>
        ensures { IfOk result (λ lists. AreListed instance.now lists (2 * length instance.now.arcs)) }
    {
        OuterEdges::of_first(alloc, instance, 2 * instance.arcs().len() as u32)
    }

    /// The lists of the arcs alone, each at its start. They take 4 bytes for each step and for each arc.
    pub fn of_arcs(alloc: Global, instance: &Instance) -> Result<OuterEdges, NoMemory>
        ensures { IfOk result (λ lists. AreListed instance.now lists (length instance.now.arcs)) }
    {
        OuterEdges::of_first(alloc, instance, instance.arcs().len() as u32)
    }

    // The lists of the edges of the numbers below the count.
    fn of_first(alloc: Global, instance: &Instance, count: u32) -> Result<OuterEdges, NoMemory>
        requires { count ≤ 2 * length instance.now.arcs }
        ensures { IfOk result (λ lists. AreListed instance.now lists count) }
    {
        let arcs = instance.arcs();
        let first = vec![in alloc; 0; instance.steps() as usize + 1]?;
        let next = vec![in alloc; 0; count as usize]?;
        let mut edges = OuterEdges { first, next };
        for number in 0..count {
            edges.add(number, tail_at(arcs, number));
        }
        Ok(edges)
    }

    // Puts the edge of that number at the beginning of the list of the node.
    fn add(&mut self, number: u32, node: u32)
        requires number { number < length self.old.next }
        requires node { node < length self.old.first }
        requires few { number < 2 ^ 27 }
        ensures { self.new ≡ one_more self.old number node }
    {
        self.next[number as usize] = self.first[node as usize];
        self.first[node as usize] = number + 1;
    }

    /// The number of the first edge in the list of the node.
    #[inline(always)]
    pub fn first(&self, node: u32) -> u32
        requires { node < length self.now.first }
        ensures { result ≡ slice_index self.now.first node }
    {
        self.first[node as usize]
    }

    /// The number of the edge after that of the number, which counts from 0.
    #[inline(always)]
    pub fn after(&self, number: u32) -> u32
        requires { number < length self.now.next }
        ensures { result ≡ slice_index self.now.next number }
    {
        self.next[number as usize]
    }
}
