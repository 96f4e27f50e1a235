//! A network: the flows over an instance, and the potentials of its nodes.
ghost use Rattle.std.specs.Prelude.{◌≡◌, pos, ◌+ℤ◌, ◌+◌, ◌≤◌, ◌^◌, IfOk, slice_index, slice_set};
ghost use Rattle.flow_model.specs.Networks.{IsEdge, residual, tail, head, gain, loss};
ghost use Rattle.flow_model.specs.Pushes.{CanPush, push_path};
ghost use Rattle.flow_network.specs.States.{IsState, unused};

use crate::ends::{Ends, ends_of};
use crate::pushing::push_along;
use bound_base::NoMemory;
use flow_model::{Edge, Instance};
use std::alloc::Global;
use std::marker::Model;

/// The residual network of an instance, whose nodes are 0 to the number of steps. It has the flow of each arc, the
/// flow over each step beside the arcs, and the potential of each node.
#[derive(Drop)]
pub struct Network<'a> {
    instance: &'a Instance,
    outer: Vec<u64>,
    inner: Vec<u64>,
    pushed: u64,
    potentials: Vec<u128>,
}

impl<'a> Model for Network<'a> {
    ghost use Rattle.flow_network.specs.States.{State, IsState, state_of};

    ghost Value = { State };

    ghost view = { λ n. state_of n.instance.now n.outer.items n.inner.items n.pushed n.potentials.items };

    ghost invariant = { λ n. IsState (state_of n.instance.now n.outer.items n.inner.items n.pushed n.potentials.items) };
}

impl<'a> Network<'a> {
    /// A network without flow, whose potentials are 0. It takes 8 bytes for each arc and 24 for each step.
    pub fn new(alloc: Global, instance: &'a Instance) -> Result<Network<'a>, NoMemory>
        ensures { IfOk result (λ n. n ≡ unused instance.now) }
    {
        let steps = instance.steps() as usize;
        let arcs = instance.arcs().len();
        let outer = vec![in alloc; 0; arcs]?;
        let inner = vec![in alloc; 0; steps]?;
        let potentials = vec![in alloc; 0; steps + 1]?;
        Ok(Network {
            instance,
            outer,
            inner,
            pushed: 0,
            potentials,
        })
    }

    /// The instance that the network is of.
    #[inline(always)]
    pub fn instance(&self) -> &'a Instance
        ensures instance { result.now ≡ self.now.instance }
        ensures state { IsState self.now }
    {
        self.instance
    }

    /// The units that are not pushed yet.
    pub fn left(&self) -> u64
        ensures left { result + self.now.pushed ≡ self.now.instance.units }
        ensures state { IsState self.now }
    {
        self.instance.units() - self.pushed
    }

    /// How many units more can go along the edge. An inner edge has no limit of its own, and answers the units.
    #[inline(always)]
    pub fn residual(&self, edge: Edge) -> u64
        requires { IsEdge self.now.instance edge }
        ensures residual { result ≡ residual self.now.instance self.now.flows edge }
        ensures state { IsState self.now }
    {
        match edge {
            Edge::Inner(_) => self.instance.units(),
            Edge::InnerBack(step) => self.inner[step as usize],
            Edge::Outer(arc) => {
                self.instance.arcs()[arc as usize].weight - self.outer[arc as usize]
            }
            Edge::OuterBack(arc) => self.outer[arc as usize],
        }
    }

    /// The ends of the edge, and what a unit along it earns and gives up.
    #[inline(always)]
    pub fn ends(&self, edge: Edge) -> Ends
        requires { IsEdge self.now.instance edge }
        ensures tail { result.tail ≡ tail self.now.instance.arcs edge }
        ensures head { result.head ≡ head self.now.instance.arcs edge }
        ensures gain { result.gain ≡ gain self.now.instance.arcs edge }
        ensures loss { result.loss ≡ loss self.now.instance.arcs edge }
        ensures within { (result.tail ≤ self.now.instance.steps) × (result.head ≤ self.now.instance.steps) }
        ensures small { (result.gain ≤ 2 ^ 97) × (result.loss ≤ 2 ^ 97) }
    {
        ends_of(self.instance.arcs(), edge)
    }

    /// The potential of the node.
    #[inline(always)]
    pub fn potential(&self, node: u32) -> u128
        requires { node ≤ self.now.instance.steps }
        ensures potential { result ≡ slice_index self.now.potentials node }
        ensures small { result ≤ 2 ^ 122 }
    {
        self.potentials[node as usize]
    }

    /// Sets the potential of the node, and of no other.
    pub fn set_potential(&mut self, node: u32, value: u128)
        requires node { node ≤ self.old.instance.steps }
        requires value { value ≤ 2 ^ 122 }
        ensures potential { self.new ≡ record self.old { potentials = slice_set self.old.potentials node value } }
        ensures state { IsState self.new }
    {
        self.potentials[node as usize] = value;
    }

    /// The cost of the edge, negated for a back edge, plus the potential of its head less that of its tail.
    pub fn reduced(&self, edge: Edge) -> i128
        requires { IsEdge self.now.instance edge }
        ensures { result +ℤ pos (loss self.now.instance.arcs edge + slice_index self.now.potentials (tail self.now.instance.arcs edge))
            ≡ pos (gain self.now.instance.arcs edge + slice_index self.now.potentials (head self.now.instance.arcs edge)) }
    {
        let ends = self.ends(edge);
        let ahead = ends.gain + self.potential(ends.head);
        let behind = ends.loss + self.potential(ends.tail);
        ahead as i128 - behind as i128
    }

    /// Pushes the amount along the path, which leads from the first node to the last.
    pub fn push(&mut self, path: &[Edge], amount: u64)
        requires path { CanPush self.old.instance self.old.flows path.now amount }
        requires units { self.old.pushed + amount ≤ self.old.instance.units }
        ensures pushed { self.new ≡ record self.old { flows = push_path amount self.old.flows path.now; pushed = self.old.pushed + amount } }
        ensures state { IsState self.new }
    {
        push_along(path, amount, &mut self.outer, &mut self.inner);
        self.pushed += amount;
    }

    /// The flow of each arc. The rest of the network is given back.
    pub fn into_flows(self) -> Vec<u64>
        ensures { result.items ≡ self.entry.flows.outer }
    {
        self.outer
    }
}
