//! The search for the distances of the nodes from the first, nearest first.
ghost use Rattle.std.specs.Prelude.{◌≡◌, ℕ, ◌+◌, ◌-◌, ◌*◌, ◌≤◌, ◌<◌, ◌^◌, ◌↔◌, IfNone, IfOk, IfSome, IsNone, length, slice_index};
ghost use Rattle.flow_model.specs.declared.edges.Edge.{Edge as FlowEdge};
ghost use Rattle.flow_model.specs.declared.edges.Edge.TheVariants.{Inner, InnerBack};
ghost use Rattle.flow_model.specs.Networks.{IsEdge};
ghost use Rattle.flow_model.specs.Pushes.{edge_at};
ghost use Rattle.flow_parts.specs.OuterEdges.{AreListed};
ghost use Rattle.flow_parts.specs.Queues.{IsQueue, IsQueueBut, Leaves, Waits};
ghost use Rattle.flow_solver.specs.Searches.{AreArcsDoneAt, AreSettledToLast, Enters, HasSearchRoom};
ghost use Rattle.flow_solver.specs.Searches.{IsDoneAt, IsReady, IsSearchToLast, IsSettledToLast};
ghost use Rattle.flow_solver.specs.Searches.{NearsToLast, above_first, found_at, work_left};

use bound_base::NoMemory;
use flow_network::{Edge, Network};
use flow_parts::{OuterEdges, Queue, outer_edge};
use std::alloc::Global;
use std::marker::Model;

/// How many nodes can wait on the stack.
const STACK: usize = 4096;

/// How far each node is from the first, along the shortest path that was found, and the last edge of that path. The length
/// of an edge with room is its negated reduced cost. No distance matters beyond that of the last node. Nodes that were
/// found as far as the node at hand wait on a stack, as long as it has room, and the others in a queue.
#[derive(Drop)]
pub(crate) struct Search {
    distances: Vec<u128>,
    parents: Vec<Edge>,
    queue: Queue,
    stack: Vec<u32>,
    depth: u32,
}

impl Model for Search {
    ghost use Rattle.flow_solver.specs.Searches.{FoundToLast};

    ghost Value = { FoundToLast };

    ghost view = { λ s. record { distances = s.distances.items; parents = s.parents.items; waiting = s.queue; stack = s.stack.items; depth = s.depth } };
}

impl Search {
    /// Room for a search over this many steps. It takes 32 bytes for each.
    pub fn new(alloc: Global, steps: u32) -> Result<Search, NoMemory>
        requires { steps ≤ 2 ^ 25 }
        ensures { IfOk result (λ found. HasSearchRoom steps found) }
    {
        let nodes = steps as usize + 1;
        let distances = vec![in alloc; 0; nodes]?;
        let parents = vec![in alloc; Edge::Inner(0); nodes]?;
        let stack = vec![in alloc; 0; STACK]?;
        let queue = Queue::new(alloc, steps + 1)?;
        Ok(Search {
            distances,
            parents,
            queue,
            stack,
            depth: 0,
        })
    }

    /// How far the node is.
    #[inline(always)]
    pub fn distance(&self, node: u32) -> u128
        requires { node < length self.now.distances }
        ensures { result ≡ slice_index self.now.distances node }
    {
        self.distances[node as usize]
    }

    /// The edge by which the node was found.
    pub fn parent(&self, node: u32) -> Edge
        requires { node < length self.now.parents }
        ensures { result ≡ edge_at self.now.parents node }
    {
        self.parents[node as usize]
    }

    // Finds the first node alone.
    fn begin(&mut self, network: &Network)
        requires ready { IsReady network.now }
        requires room { HasSearchRoom network.now.instance.steps self.old }
        ensures search { IsSearchToLast network.now self.new }
        ensures waits { Waits self.new.waiting 0 }
        ensures depth { self.new.depth ≡ 0 }
        ensures far { (node : ℕ) → 0 < node → node ≤ network.now.instance.steps → slice_index self.new.distances node ≡ above_first network.now }
    {
        let far = network.potential(0) + 1;
        for distance in self.distances.iter_mut() {
            *distance = far;
        }
        self.distances[0] = 0;
        self.depth = 0;
        self.queue.clear();
        self.queue.offer(&self.distances, 0);
    }

    // Lowers the distance of the edge's head to that along the edge, if it is less and below the last node's.
    #[inline(always)]
    fn relax(&mut self, network: &Network, edge: Edge)
        requires ready { IsReady network.now }
        requires edge { IsEdge network.now.instance edge }
        requires search { IsSearchToLast network.now self.old }
        ensures nears { NearsToLast network.now self.old self.new }
        ensures settled { IsSettledToLast network.now self.new.distances edge }
    {
        if network.residual(edge) == 0 {
            return;
        }
        let ends = network.ends(edge);
        let limit = self.distance(network.instance().steps());
        let near = self.distance(ends.tail);
        if near >= limit || near >= self.distance(ends.head) {
            return;
        }
        let behind = near + (ends.loss + network.potential(ends.tail));
        let along = behind - (ends.gain + network.potential(ends.head));
        if along >= limit || along >= self.distance(ends.head) {
            return;
        }
        self.lower(ends.head, along, edge);
        self.enqueue(ends.head, along == near);
    }

    // Writes the lesser distance of the node, and the edge that leads to it.
    #[inline(always)]
    fn lower(&mut self, node: u32, distance: u128, edge: Edge)
        requires parents { length self.old.parents ≡ length self.old.distances }
        requires node { node < length self.old.distances }
        ensures { self.new ≡ found_at self.old node distance edge }
    {
        self.distances[node as usize] = distance;
        self.parents[node as usize] = edge;
    }

    // Lets the node wait, whose distance may have fallen: on the stack, if it comes next and can.
    #[inline(always)]
    fn enqueue(&mut self, node: u32, next: bool)
        requires queue { IsQueueBut self.old.waiting self.old.distances node }
        requires node { node < length self.old.distances }
        requires small { length self.old.stack ≤ 2 ^ 26 }
        requires fits { self.old.depth ≤ length self.old.stack }
        ensures enters { Enters self.old self.new node }
        ensures queue { IsQueue self.new.waiting self.new.distances }
    {
        if !next || self.depth as usize >= self.stack.len() {
            self.queue.offer(&self.distances, node);
            return;
        }
        self.queue.withdraw(&self.distances, node);
        self.stack[self.depth as usize] = node;
        self.depth += 1;
    }

    // Relaxes the outer edges that lead out of the node.
    fn relax_outer(&mut self, network: &Network, edges: &OuterEdges, node: u32)
        requires ready { IsReady network.now }
        requires search { IsSearchToLast network.now self.old }
        requires edges { AreListed network.now.instance edges.now (2 * length network.now.instance.arcs) }
        requires node { node ≤ network.now.instance.steps }
        ensures nears { NearsToLast network.now self.old self.new }
        ensures settled { AreArcsDoneAt network.now self.new node }
    {
        let arcs = network.instance().arcs().len() as u32;
        let mut left = edges.first(node);
        while left > 0 {
            let number = left - 1;
            self.relax(network, outer_edge(arcs, number));
            left = edges.after(number);
        }
    }

    // Relaxes the inner edge that leads on from the node, if there is one.
    #[inline(always)]
    fn relax_on(&mut self, network: &Network, node: u32)
        requires ready { IsReady network.now }
        requires search { IsSearchToLast network.now self.old }
        ensures nears { NearsToLast network.now self.old self.new }
        ensures settled { node < network.now.instance.steps → IsSettledToLast network.now self.new.distances (Inner node) }
    {
        if node < network.instance().steps() {
            self.relax(network, Edge::Inner(node));
        }
    }

    // Relaxes the inner edge that leads back from the node, if there is one.
    #[inline(always)]
    fn relax_back(&mut self, network: &Network, node: u32)
        requires ready { IsReady network.now }
        requires search { IsSearchToLast network.now self.old }
        requires node { node ≤ network.now.instance.steps }
        ensures nears { NearsToLast network.now self.old self.new }
        ensures settled { 0 < node → IsSettledToLast network.now self.new.distances (InnerBack (node - 1)) }
    {
        if node > 0 {
            self.relax(network, Edge::InnerBack(node - 1));
        }
    }

    // Relaxes the edges that lead out of the node. The arcs come last, so that their ends come next from the stack.
    fn relax_from(&mut self, network: &Network, edges: &OuterEdges, node: u32)
        requires ready { IsReady network.now }
        requires search { IsSearchToLast network.now self.old }
        requires edges { AreListed network.now.instance edges.now (2 * length network.now.instance.arcs) }
        requires node { node ≤ network.now.instance.steps }
        ensures nears { NearsToLast network.now self.old self.new }
        ensures settled { IsDoneAt network.now self.new node }
    {
        if self.distance(node) >= self.distance(network.instance().steps()) {
            return;
        }
        self.relax_back(network, node);
        self.relax_on(network, node);
        self.relax_outer(network, edges, node);
    }

    // Takes the last node from the stack.
    #[inline(always)]
    fn pop(&mut self) -> Option<u32>
        requires { self.old.depth ≤ length self.old.stack }
        ensures rest { self.new ≡ record self.old { depth = self.new.depth } }
        ensures some { IfSome result (λ node. (self.new.depth + 1 ≡ self.old.depth) × (node ≡ slice_index self.old.stack self.new.depth)) }
        ensures none { IsNone result ↔ (self.old.depth ≡ 0) }
        ensures same { IfNone result (self.new.depth ≡ self.old.depth) }
    {
        if self.depth == 0 {
            return None;
        }
        self.depth -= 1;
        Some(self.stack[self.depth as usize])
    }

    // Relaxes from the nodes on the stack, until there is none.
    fn drain(&mut self, network: &Network, edges: &OuterEdges)
        requires ready { IsReady network.now }
        requires search { IsSearchToLast network.now self.old }
        requires edges { AreListed network.now.instance edges.now (2 * length network.now.instance.arcs) }
        requires settled { AreSettledToLast network.now self.old }
        ensures search { IsSearchToLast network.now self.new }
        ensures settled { AreSettledToLast network.now self.new }
        ensures depth { self.new.depth ≡ 0 }
        ensures falls { work_left self.new ≤ work_left self.old }
    {
        while let Some(node) = self.pop() {
            self.relax_from(network, edges, node);
        }
    }

    // Takes the nearest of the nodes from the queue.
    fn take_nearest(&mut self) -> Option<u32>
        requires { IsQueue self.old.waiting self.old.distances }
        ensures rest { self.new ≡ record self.old { waiting = self.new.waiting } }
        ensures queue { IsQueue self.new.waiting self.new.distances }
        ensures some { IfSome result (Leaves self.old.waiting self.new.waiting self.old.distances) }
        ensures none { IsNone result ↔ (self.old.waiting.count ≡ 0) }
        ensures same { IfNone result (self.new.waiting ≡ self.old.waiting) }
    {
        self.queue.take(&self.distances)
    }

    /// Finds the distances within that of the last node: it takes the nearest node that waits and looks at the edges out of
    /// it, until that node is no nearer than the last.
    pub fn run(&mut self, network: &Network, edges: &OuterEdges)
        requires ready { IsReady network.now }
        requires room { HasSearchRoom network.now.instance.steps self.old }
        requires edges { AreListed network.now.instance edges.now (2 * length network.now.instance.arcs) }
        ensures search { IsSearchToLast network.now self.new }
        ensures settled { (e : FlowEdge) → IsEdge network.now.instance e → IsSettledToLast network.now self.new.distances e }
    {
        let last = network.instance().steps();
        self.begin(network);
        while let Some(node) = self.take_nearest() {
            if self.distance(node) >= self.distance(last) {
                return;
            }
            self.relax_from(network, edges, node);
            self.drain(network, edges);
        }
    }

    /// The list of the distances. The rest of the search is given back.
    pub fn into_distances(self) -> Vec<u128>
        ensures { result.items ≡ self.distances }
    {
        self.distances
    }
}
