//! Edges are looked at: what they make nearer.
ghost use Rattle.std.specs.Prelude.{◌≡◌, ℕ, ◌+◌, ◌-◌, ◌*◌, ◌^◌, ◌≤◌, ◌<◌, IsTrue, length, slice_index};
ghost use Rattle.flow_model.specs.declared.edges.Edge.TheVariants.{Inner, InnerBack};
ghost use Rattle.flow_model.specs.Networks.{IsEdge, head, tail};
ghost use Rattle.flow_parts.specs.OuterEdges.{edge_of, tail_of};
ghost use Rattle.flow_sparse.specs.Ranges.{AreRising, listed_at};
ghost use Rattle.flow_sparse.specs.States.{IsReady, IsHigh};
ghost use Rattle.flow_sparse.specs.Searches.{IsListed, IsSearch, Nears, far, IsSettledBy, BringsNoNearer, HasHead, IsNoWay};
ghost use Rattle.flow_sparse.specs.Searches.{AreListedDone, AreWokenDone, AreAllDone};

use crate::edges::{ListedEdge, WokenEdge};
use crate::lists::EdgeLists;
use crate::network::Network;
use crate::search::Search;
use flow_model::Edge;
use flow_parts::outer_edge;

impl Search {
    // Lowers the distance of the edge's head to that along the edge, if it is less and below the limit.
    #[inline(always)]
    fn relax(&mut self, network: &Network, from: u32, edge: Edge)
        requires ready { IsReady network.now }
        requires high { IsHigh network.now }
        requires edge { IsEdge network.now.instance edge }
        requires search { IsSearch network.now from self.old }
        ensures nears { Nears network.now from self.old self.new }
        ensures settled { IsSettledBy network.now self.new edge }
    {
        let ends = network.ends(edge);
        let near = self.distance(ends.tail);
        if near >= self.distance(ends.head) || network.residual(edge) == 0 {
            return;
        }
        let behind = near + (ends.loss + network.potential(ends.tail));
        let along = behind - (ends.gain + network.potential(ends.head));
        if along >= self.limit() || along >= self.distance(ends.head) {
            return;
        }
        self.lower(ends.head, along, edge);
        self.aim(network, ends.head);
        self.enqueue(ends.head);
    }

    // The listed length at which an edge out of a node of that distance, whose potential fell by that, leads to the limit.
    #[inline(always)]
    fn reach(&self, near: u128, fell: u128) -> u128
        requires small { self.now.limit ≤ far }
        requires fell { fell ≤ 2 ^ 124 }
        ensures { result ≡ self.now.limit + fell - near }
    {
        (self.limit() + fell).saturating_sub(near)
    }

    // Whether the head of the edge is as near without it, or past the limit along it. The length of the edge is the
    // listed one, but for what the potentials of its ends fell by since.
    #[inline(always)]
    fn is_near(
        &self,
        lists: &EdgeLists,
        edge: ListedEdge,
        near: u128,
        fell: u128,
        reach: u128,
    ) -> bool
        requires head { HasHead lists.now self.now edge }
        requires near { near ≤ far }
        requires fell { fell ≤ 2 ^ 124 }
        requires reach { self.now.limit + fell ≤ near + reach }
        ensures { IsTrue result → BringsNoNearer lists.now self.now edge near fell }
    {
        let length = edge.listed_length as u128 + lists.fall(edge.head);
        length >= reach || near + length >= self.distance(edge.head) + fell
    }

    // The first place from one on whose edge may bring its head nearer, or the place past the last. They stand in order of their
    // lengths, so none behind one too long does.
    fn next_place(&self, lists: &EdgeLists, first: u32, past: u32, near: u128, fell: u128) -> u32
        requires order { first ≤ past }
        requires within { past ≤ length lists.now.edges }
        requires rising { AreRising lists.now.edges first past }
        requires heads { (p : ℕ) → p < past → HasHead lists.now self.now (listed_at lists.now.edges p) }
        requires small { self.now.limit ≤ far }
        requires near { near ≤ far }
        requires fell { fell ≤ 2 ^ 124 }
        ensures range { (first ≤ result) × (result ≤ past) }
        ensures passed { (p : ℕ) → first ≤ p → p < result → IsNoWay lists.now self.now (listed_at lists.now.edges p) near fell }
    {
        let reach = self.reach(near, fell);
        for place in first..past {
            let edge = lists.edge(place);
            if edge.listed_length as u128 >= reach {
                return past;
            }
            if !self.is_near(lists, edge, near, fell, reach) && !lists.is_short(edge, fell) {
                return place;
            }
        }
        past
    }

    // Relaxes the listed edges out of the node that may bring their heads nearer.
    fn relax_listed(&mut self, network: &Network, lists: &EdgeLists, from: u32, node: u32)
        requires ready { IsReady network.now }
        requires high { IsHigh network.now }
        requires search { IsSearch network.now from self.old }
        requires lists { IsListed network.now lists.now }
        requires node { node ≤ network.now.instance.steps }
        ensures nears { Nears network.now from self.old self.new }
        ensures settled { AreListedDone network.now lists.now self.new node }
    {
        let near = self.distance(node);
        let fell = lists.fall(node);
        let past = lists.first(node + 1);
        let mut place = self.next_place(lists, lists.first(node), past, near, fell);
        while place < past {
            self.relax(
                network,
                from,
                outer_edge(network.arc_count(), lists.edge(place).number),
            );
            place = self.next_place(lists, place + 1, past, near, fell);
        }
    }

    // Relaxes the woken edge out of the node, unless its head is no farther: no edge with room is shorter than 0.
    #[inline(always)]
    fn relax_woken(&mut self, network: &Network, from: u32, node: u32, edge: WokenEdge)
        requires ready { IsReady network.now }
        requires high { IsHigh network.now }
        requires search { IsSearch network.now from self.old }
        requires node { node ≤ network.now.instance.steps }
        requires is_edge { edge.number < 2 * length network.now.instance.arcs }
        requires head { edge.head ≡ head network.now.instance.arcs (edge_of (length network.now.instance.arcs) edge.number) }
        requires tail { tail_of network.now.instance.arcs edge.number ≡ node }
        ensures nears { Nears network.now from self.old self.new }
        ensures settled { IsSettledBy network.now self.new (edge_of (length network.now.instance.arcs) edge.number) }
    {
        if self.distance(edge.head) <= self.distance(node) {
            return;
        }
        self.relax(network, from, outer_edge(network.arc_count(), edge.number));
    }

    // Relaxes the woken edges out of the node.
    fn relax_chain(&mut self, network: &Network, lists: &EdgeLists, from: u32, node: u32)
        requires ready { IsReady network.now }
        requires high { IsHigh network.now }
        requires search { IsSearch network.now from self.old }
        requires lists { IsListed network.now lists.now }
        requires node { node ≤ network.now.instance.steps }
        ensures nears { Nears network.now from self.old self.new }
        ensures settled { AreWokenDone network.now lists.now self.new node }
    {
        let mut left = lists.last(node);
        while left > 0 {
            let edge = lists.woken(left - 1);
            self.relax_woken(network, from, node, edge);
            left = edge.before;
        }
    }

    /// Relaxes the inner edge that leads on from the node, if there is one.
    #[inline(always)]
    pub fn relax_on(&mut self, network: &Network, from: u32, node: u32)
        requires ready { IsReady network.now }
        requires high { IsHigh network.now }
        requires search { IsSearch network.now from self.old }
        ensures nears { Nears network.now from self.old self.new }
        ensures settled { node < network.now.instance.steps → IsSettledBy network.now self.new (Inner node) }
    {
        if node < network.steps() {
            self.relax(network, from, Edge::Inner(node));
        }
    }

    // Relaxes the inner edge that leads back from the node, if there is one.
    #[inline(always)]
    fn relax_back(&mut self, network: &Network, from: u32, node: u32)
        requires ready { IsReady network.now }
        requires high { IsHigh network.now }
        requires search { IsSearch network.now from self.old }
        requires node { node ≤ network.now.instance.steps }
        ensures nears { Nears network.now from self.old self.new }
        ensures settled { 0 < node → IsSettledBy network.now self.new (InnerBack (node - 1)) }
    {
        if node > 0 {
            self.relax(network, from, Edge::InnerBack(node - 1));
        }
    }

    /// Relaxes the edges that lead out of the node.
    pub fn relax_from(&mut self, network: &Network, lists: &EdgeLists, from: u32, node: u32)
        requires ready { IsReady network.now }
        requires high { IsHigh network.now }
        requires search { IsSearch network.now from self.old }
        requires lists { IsListed network.now lists.now }
        requires node { node ≤ network.now.instance.steps }
        ensures nears { Nears network.now from self.old self.new }
        ensures settled { AreAllDone network.now self.new node }
    {
        self.relax_on(network, from, node);
        self.relax_chain(network, lists, from, node);
        self.relax_listed(network, lists, from, node);
        self.relax_back(network, from, node);
    }
}
