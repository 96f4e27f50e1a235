//! The search for the distances of nodes from one of them, nearest first, as far as the nearest that has an excess.
ghost use Rattle.std.specs.Prelude.{◌≡◌, ℕ, ◌≤◌, ◌<◌, ◌^◌, ◌↔◌, ◌≢◌, IfNone, IfOk, IfSome, IsNone, length, replicate, slice_index, slice_set};
ghost use Rattle.flow_model.specs.declared.edges.Edge.{Edge as FlowEdge};
ghost use Rattle.flow_model.specs.Networks.{IsEdge};
ghost use Rattle.flow_model.specs.Pushes.{edge_at};
ghost use Rattle.flow_parts.specs.Queues.{IsQueue, IsQueueBut, Joins, Leaves, Waits};
ghost use Rattle.flow_sparse.specs.States.{IsReady, IsHigh};
ghost use Rattle.flow_sparse.specs.Searches.{AreSettled, IsAimed, IsIdle, IsListed, IsSearch, KeepsRoom, far, IsSettledBy};

use crate::lists::EdgeLists;
use crate::network::Network;
use bound_base::NoMemory;
use flow_model::Edge;
use flow_parts::Queue;
use std::alloc::Global;
use std::marker::Model;

/// The distance of a node that was not found.
const FAR: u128 = 1 << 125;

/// How far each node is from the one where the search began, along the shortest path that was found, and the last edge of
/// that path. The length of an edge with room is its negated reduced cost. No distance matters beyond that of the nearest node
/// with an excess.
#[derive(Drop)]
pub(crate) struct Search {
    pub distances: Vec<u128>,
    pub parents: Vec<Edge>,
    pub queue: Queue,
    pub limit: u128,
    pub goal: u32,
}

impl Model for Search {
    ghost use Rattle.flow_sparse.specs.Searches.{Found};

    ghost Value = { Found };

    ghost view = { λ s. record { distances = s.distances.items; parents = s.parents.items; waiting = s.queue; limit = s.limit; goal = s.goal } };
}

impl Search {
    /// Room for searches over the nodes between this many open steps.
    pub fn new(alloc: Global, count: u32) -> Result<Search, NoMemory>
        requires { count ≤ 2 ^ 25 }
        ensures { IfOk result (IsIdle count) }
    {
        let nodes = count as usize + 1;
        let distances = vec![in alloc; 0; nodes]?;
        let parents = vec![in alloc; Edge::Inner(0); nodes]?;
        let mut queue = Queue::new(alloc, count + 1)?;
        queue.clear();
        Ok(Search {
            distances,
            parents,
            queue,
            limit: 0,
            goal: 0,
        })
    }

    /// How far the node is.
    #[inline(always)]
    pub fn distance(&self, node: u32) -> u128
        requires { node < length self.now.distances }
        ensures { result ≡ slice_index self.now.distances node }
    {
        self.distances[node as usize]
    }

    /// The edge by which the node was found.
    #[inline(always)]
    pub fn parent(&self, node: u32) -> Edge
        requires { node < length self.now.parents }
        ensures { result ≡ edge_at self.now.parents node }
    {
        self.parents[node as usize]
    }

    /// How far the nearest node with an excess is.
    #[inline(always)]
    pub fn limit(&self) -> u128
        ensures { result ≡ self.now.limit }
    {
        self.limit
    }

    /// The nearest node with an excess.
    #[inline(always)]
    pub fn goal(&self) -> u32
        ensures { result ≡ self.now.goal }
    {
        self.goal
    }

    /// Writes the lesser distance of the node, and the edge that leads to it.
    #[inline(always)]
    pub fn lower(&mut self, node: u32, distance: u128, edge: Edge)
        requires parents { node < length self.old.parents }
        requires node { node < length self.old.distances }
        ensures { self.new ≡ record self.old { distances = slice_set self.old.distances node distance; parents = slice_set self.old.parents node edge } }
    {
        self.distances[node as usize] = distance;
        self.parents[node as usize] = edge;
    }

    /// Makes the node the goal, if it has an excess and is nearer than the limit.
    #[inline(always)]
    pub fn aim(&mut self, network: &Network, node: u32)
        requires node { node < length self.old.distances }
        requires excess { node < length network.now.excess }
        ensures rest { self.new ≡ record self.old { limit = self.new.limit; goal = self.new.goal } }
        ensures aimed { IsAimed network.now self.old.limit self.old.goal self.new.distances node self.new.limit self.new.goal }
    {
        if network.excess(node) > 0 && self.distance(node) < self.limit {
            self.limit = self.distance(node);
            self.goal = node;
        }
    }

    /// Lets the node wait, whose distance may have fallen.
    #[inline(always)]
    pub fn enqueue(&mut self, node: u32)
        requires queue { IsQueueBut self.old.waiting self.old.distances node }
        requires node { node < length self.old.distances }
        ensures rest { self.new ≡ record self.old { waiting = self.new.waiting } }
        ensures queue { IsQueue self.new.waiting self.new.distances }
        ensures joins { Joins self.old.waiting self.new.waiting node }
    {
        self.queue.offer(&self.distances, node);
    }

    // Takes the nearest of the nodes from the queue.
    #[inline(always)]
    fn take_nearest(&mut self) -> Option<u32>
        requires { IsQueue self.old.waiting self.old.distances }
        ensures rest { self.new ≡ record self.old { waiting = self.new.waiting } }
        ensures queue { IsQueue self.new.waiting self.new.distances }
        ensures some { IfSome result (Leaves self.old.waiting self.new.waiting self.old.distances) }
        ensures none { IsNone result ↔ (self.old.waiting.count ≡ 0) }
        ensures same { IfNone result (self.new.waiting ≡ self.old.waiting) }
    {
        self.queue.take(&self.distances)
    }

    // Forgets all nodes that were found.
    fn forget(&mut self)
        ensures { self.new ≡ record self.old { distances = replicate (length self.old.distances) far } }
    {
        self.distances.fill(FAR);
    }

    // Sets the distance of the node to 0, and no limit.
    fn place(&mut self, node: u32)
        requires { node < length self.old.distances }
        ensures { self.new ≡ record self.old { distances = slice_set self.old.distances node 0; limit = far } }
    {
        self.distances[node as usize] = 0;
        self.limit = FAR;
    }

    // Lets the node alone wait, at no distance.
    fn start(&mut self, network: &Network, first: u32)
        requires idle { IsIdle network.now.instance.steps self.old }
        requires within { first ≤ network.now.instance.steps }
        requires excess { network.now.instance.steps < length network.now.excess }
        requires far_off { (node : ℕ) → node ≤ network.now.instance.steps → slice_index self.old.distances node ≡ far }
        ensures search { IsSearch network.now first self.new }
        ensures far_off { (node : ℕ) → node ≢ first → node ≤ network.now.instance.steps → slice_index self.new.distances node ≡ far }
        ensures waits { Waits self.new.waiting first }
        ensures each_distance { length self.new.distances ≡ length self.old.distances }
        ensures each_parent { length self.new.parents ≡ length self.old.parents }
    {
        self.place(first);
        self.aim(network, first);
        self.enqueue(first);
    }

    // Lets no node wait.
    fn empty(&mut self)
        requires { IsQueue self.old.waiting self.old.distances }
        ensures rest { self.new ≡ record self.old { waiting = self.new.waiting } }
        ensures none { self.new.waiting.count ≡ 0 }
        ensures queue { IsQueue self.new.waiting self.new.distances }
    {
        self.queue.clear();
    }

    // Relaxes the inner edges that lead on from the node, as far as the first node with an excess. So there is a limit before
    // the edges of any list are looked at.
    fn lead(&mut self, network: &Network, from: u32)
        requires ready { IsReady network.now }
        requires high { IsHigh network.now }
        requires search { IsSearch network.now from self.old }
        requires settled { AreSettled network.now self.old }
        ensures search { IsSearch network.now from self.new }
        ensures settled { AreSettled network.now self.new }
        ensures each_distance { length self.new.distances ≡ length self.old.distances }
        ensures each_parent { length self.new.parents ≡ length self.old.parents }
    {
        for node in from..network.steps() {
            if self.limit() < FAR {
                return;
            }
            self.relax_on(network, from, node);
        }
    }

    // Looks at the edges out of the nodes that wait, the nearest first, until none is nearer than the limit.
    fn spread(&mut self, network: &Network, lists: &EdgeLists, from: u32)
        requires ready { IsReady network.now }
        requires high { IsHigh network.now }
        requires search { IsSearch network.now from self.old }
        requires settled { AreSettled network.now self.old }
        requires lists { IsListed network.now lists.now }
        ensures search { IsSearch network.now from self.new }
        ensures settled { (e : FlowEdge) → IsEdge network.now.instance e → IsSettledBy network.now self.new e }
        ensures each_distance { length self.new.distances ≡ length self.old.distances }
        ensures each_parent { length self.new.parents ≡ length self.old.parents }
    {
        while let Some(node) = self.take_nearest() {
            if self.distance(node) >= self.limit() {
                return;
            }
            self.relax_from(network, lists, from, node);
        }
    }

    /// Finds the distances from the node, as far as the nearest node with an excess.
    pub fn run(&mut self, network: &Network, lists: &EdgeLists, from: u32)
        requires ready { IsReady network.now }
        requires high { IsHigh network.now }
        requires idle { IsIdle network.now.instance.steps self.old }
        requires lists { IsListed network.now lists.now }
        requires from { from ≤ network.now.instance.steps }
        ensures search { IsSearch network.now from self.new }
        ensures settled { (e : FlowEdge) → IsEdge network.now.instance e → IsSettledBy network.now self.new e }
        ensures none { self.new.waiting.count ≡ 0 }
        ensures room { KeepsRoom self.old self.new }
    {
        self.forget();
        self.start(network, from);
        self.lead(network, from);
        self.spread(network, lists, from);
        self.empty();
    }
}
