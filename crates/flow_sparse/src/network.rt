//! The network of the open steps.
ghost use Rattle.std.specs.Prelude.{◌≡◌, ℕ, ◌+◌, ◌*◌, ◌≤◌, ◌<◌, ◌^◌, All, length, slice_index, slice_set};
ghost use Rattle.flow_model.specs.Networks.{IsEdge, residual, tail, head, gain, loss};
ghost use Rattle.flow_model.specs.Pushes.{IsSimple, push_path};
ghost use Rattle.flow_model.specs.Instances.{IsInstance, load_at};
ghost use Rattle.flow_sparse.specs.Contractions.{AreFalls, NeverRises};
ghost use Rattle.flow_sparse.specs.Ranges.{IsAsLong, IsNoLonger};
ghost use Rattle.flow_sparse.specs.Searches.{list_of};
ghost use Rattle.flow_sparse.specs.Starts.{AreFitted};
ghost use Rattle.flow_sparse.specs.States.{CanPush, HasWideRoomFor, IsHigh, IsNetwork, IsReady, IsState, pushed, with_less};

use crate::loads::write_loads;
use crate::numbering::write_prices;
use crate::pushing::push_along;
use crate::starting::fit_flows;
use flow_model::{Edge, Instance, OuterArc};
use flow_network::{Ends, ends_of};
use flow_parts::outer_edge;
use std::marker::Model;

/// The arcs between nodes, with one node for all times between two open steps; the flows along the arcs and beside them, the
/// potential of each node, and its excess and its deficit in units.
#[derive(Drop)]
pub(crate) struct Network {
    pub arcs: Vec<OuterArc>,
    pub units: u64,
    pub count: u32,
    pub outer: Vec<u64>,
    pub inner: Vec<u128>,
    pub potentials: Vec<u128>,
    pub excess: Vec<u128>,
    pub deficit: Vec<u128>,
}

impl Model for Network {
    ghost use Rattle.flow_sparse.specs.States.{State, state_of};

    ghost Value = { State };

    ghost view = { λ n. state_of n.count n.units n.arcs.items n.outer.items n.inner.items n.potentials.items n.excess.items n.deficit.items };
}

impl Network {
    /// How many steps are open.
    #[inline(always)]
    pub fn steps(&self) -> u32
        ensures { result ≡ self.now.instance.steps }
    {
        self.count
    }

    /// How many arcs there are.
    #[inline(always)]
    pub fn arc_count(&self) -> u32
        requires { length self.now.instance.arcs ≤ 2 ^ 26 }
        ensures { result ≡ length self.now.instance.arcs }
    {
        self.arcs.len() as u32
    }

    /// How many units more can go along the edge. An inner edge has no limit of its own, and answers the units.
    #[inline(always)]
    pub fn residual(&self, edge: Edge) -> u128
        requires fits { IsState self.now }
        requires edge { IsEdge self.now.instance edge }
        ensures { result ≡ residual self.now.instance self.now.flows edge }
    {
        match edge {
            Edge::Inner(_) => self.units as u128,
            Edge::InnerBack(step) => self.inner[step as usize],
            Edge::Outer(arc) => {
                (self.arcs[arc as usize].weight - self.outer[arc as usize]) as u128
            }
            Edge::OuterBack(arc) => self.outer[arc as usize] as u128,
        }
    }

    /// The ends of the edge, and what a unit along it earns and gives up.
    #[inline(always)]
    pub fn ends(&self, edge: Edge) -> Ends
        requires fits { IsNetwork self.now.instance }
        requires edge { IsEdge self.now.instance edge }
        ensures tail { result.tail ≡ tail self.now.instance.arcs edge }
        ensures head { result.head ≡ head self.now.instance.arcs edge }
        ensures gain { result.gain ≡ gain self.now.instance.arcs edge }
        ensures loss { result.loss ≡ loss self.now.instance.arcs edge }
        ensures within { (result.tail ≤ self.now.instance.steps) × (result.head ≤ self.now.instance.steps) }
        ensures small { (result.gain ≤ 2 ^ 97) × (result.loss ≤ 2 ^ 97) }
    {
        ends_of(&self.arcs, edge)
    }

    /// The node in whose list the outer edge of that number stands: the one that it leads out of; or if it has no room, or
    /// leads back to that node, the one past all.
    #[inline(always)]
    pub fn list_of(&self, number: u32) -> u32
        requires fits { IsState self.now }
        requires number { number < 2 * length self.now.instance.arcs }
        ensures list { result ≡ list_of self.now number }
        ensures within { result ≤ self.now.instance.steps + 1 }
    {
        let past = self.steps() + 1;
        let edge = outer_edge(self.arc_count(), number);
        let ends = self.ends(edge);
        if ends.tail == ends.head {
            return past;
        }
        if self.residual(edge) == 0 {
            return past;
        }
        ends.tail
    }

    /// How long the edge is, as far as 64 bits hold that. It has room, so it isn't shorter than 0.
    #[inline(always)]
    pub fn length_of(&self, edge: Edge) -> u64
        requires ready { IsReady self.now }
        requires high { IsHigh self.now }
        requires edge { IsEdge self.now.instance edge }
        requires room { 0 < residual self.now.instance self.now.flows edge }
        ensures bound { IsAsLong self.now.instance.arcs (slice_index self.now.potentials) result edge }
        ensures exact { IsNoLonger self.now.instance.arcs (slice_index self.now.potentials) result edge }
    {
        let ends = self.ends(edge);
        let behind = ends.loss + self.potential(ends.tail);
        let length = behind - (ends.gain + self.potential(ends.head));
        length.min(u64::MAX as u128) as u64
    }

    /// The potential of the node.
    #[inline(always)]
    pub fn potential(&self, node: u32) -> u128
        requires { node < length self.now.potentials }
        ensures { result ≡ slice_index self.now.potentials node }
    {
        self.potentials[node as usize]
    }

    /// Sets the potential of the node, and of no other.
    #[inline(always)]
    pub fn set_potential(&mut self, node: u32, value: u128)
        requires { node < length self.old.potentials }
        ensures { self.new ≡ record self.old { potentials = slice_set self.old.potentials node value } }
    {
        self.potentials[node as usize] = value;
    }

    /// The excess of the node, in units.
    #[inline(always)]
    pub fn excess(&self, node: u32) -> u128
        requires { node < length self.now.excess }
        ensures { result ≡ slice_index self.now.excess node }
    {
        self.excess[node as usize]
    }

    /// The deficit of the node, in units.
    #[inline(always)]
    pub fn deficit(&self, node: u32) -> u128
        requires { node < length self.now.deficit }
        ensures { result ≡ slice_index self.now.deficit node }
    {
        self.deficit[node as usize]
    }

    // Takes the amount from the deficit of the one node, and from the excess of the other.
    fn lessen(&mut self, from: u32, to: u32, amount: u128)
        requires deficit { (from < length self.old.deficit) × (amount ≤ slice_index self.old.deficit from) }
        requires excess { (to < length self.old.excess) × (amount ≤ slice_index self.old.excess to) }
        ensures { self.new ≡ with_less self.old from to amount }
    {
        self.deficit[from as usize] -= amount;
        self.excess[to as usize] -= amount;
    }

    // Pushes the amount along the path.
    fn push_path(&mut self, path: &[Edge], amount: u128)
        requires room { All (HasWideRoomFor amount self.old.flows) path.now }
        requires simple { IsSimple path.now }
        ensures { self.new ≡ record self.old { flows = push_path amount self.old.flows path.now } }
    {
        push_along(path, amount, &mut self.outer, &mut self.inner);
    }

    /// Pushes the amount along the path, from a node with at least that deficit to one with at least that excess.
    pub fn push(&mut self, from: u32, to: u32, path: &[Edge], amount: u128)
        requires ready { IsReady self.old }
        requires high { IsHigh self.old }
        requires can { CanPush self.old from to path.now amount }
        ensures { self.new ≡ pushed self.old from to path.now amount }
    {
        self.push_path(path, amount);
        self.lessen(from, to, amount);
    }

    /// Writes the price of each step: the fall of the potential between the nodes of its times.
    pub fn write_prices(&self, nodes: &[u32], prices: &mut [u128])
        requires each_time { length nodes.now ≡ length prices.old + 1 }
        requires within { (t : ℕ) → t < length nodes.now → slice_index nodes.now t < length self.now.potentials }
        requires falls { NeverRises (length prices.old) nodes.now self.now.potentials }
        ensures falls { AreFalls (length prices.old) nodes.now self.now.potentials prices.new }
        ensures each_step { length prices.new ≡ length prices.old }
    {
        write_prices(nodes, &self.potentials, prices);
    }

    /// Gives each arc its weight as flow, unless it costs less than its steps' prices.
    pub fn fit(&mut self, instance: &Instance, falls: &[u128])
        requires each_arc { length self.old.flows.outer ≡ length instance.now.arcs }
        requires each { length falls.now ≡ instance.now.steps + 1 }
        requires small { (t : ℕ) → t ≤ instance.now.steps → slice_index falls.now t ≤ 2 ^ 122 }
        ensures rest { self.new ≡ record self.old { flows = record { outer = self.new.flows.outer; inner = self.old.flows.inner } } }
        ensures each { length self.new.flows.outer ≡ length self.old.flows.outer }
        ensures fitted { AreFitted instance.now falls.now self.new.flows.outer }
    {
        fit_flows(instance, falls, &mut self.outer);
    }

    /// Writes the load of each step.
    pub fn write_loads(&self, instance: &Instance, loads: &mut [u128])
        requires fits { IsInstance instance.now }
        requires each_arc { length self.now.flows.outer ≡ length instance.now.arcs }
        requires small { (i : ℕ) → i < length self.now.flows.outer → slice_index self.now.flows.outer i ≤ 2 ^ 48 }
        requires each_start { length loads.old ≡ instance.now.steps + 1 }
        ensures loads { (t : ℕ) → t < instance.now.steps → slice_index loads.new t ≡ load_at instance.now.arcs self.now.flows.outer t }
        ensures each { length loads.new ≡ length loads.old }
    {
        write_loads(instance, &self.outer, loads);
    }

    /// The flow of each arc. The rest of the network is given back.
    pub fn into_flows(self) -> Vec<u64>
        ensures { result.items ≡ self.flows.outer }
    {
        self.outer
    }
}
