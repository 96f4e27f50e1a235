//! Paths that lead only onward: each of their edges leads to a later node.
//!
//! Under one set of potentials nothing is lost along many of them. They are found without distances, by going on from
//! the first node, and back from where no edge leads on.
ghost use Rattle.std.specs.Prelude.{◌≡◌, ℕ, ◌+◌, ◌*◌, ◌<◌, ◌≤◌, All, IfOk, IfSome, IsTrue, Some};
ghost use Rattle.std.specs.Prelude.{length, slice_get, slice_index, slice_set, take, true};
ghost use Rattle.flow_model.specs.Networks.{IsEdge, IsTight, residual};
ghost use Rattle.flow_network.specs.States.{IsState};
ghost use Rattle.flow_solver.specs.Onward.{IsOnward, LeadsOn};
ghost use Rattle.flow_parts.specs.OuterEdges.{AreListed};
ghost use Rattle.flow_solver.specs.Rounds.{Keeps};
ghost use Rattle.flow_solver.specs.Searches.{IsReady};

use bound_base::NoMemory;
use flow_network::{Edge, Network};
use flow_parts::{OuterEdges, outer_edge};
use std::alloc::Global;
use std::marker::Model;

/// Whether each node is a dead end: no path onward from it was found to reach the last node.
#[derive(Drop)]
pub(crate) struct DeadEnds {
    marks: Vec<bool>,
}

impl Model for DeadEnds {
    ghost use Rattle.std.specs.Prelude.{Bool, List};

    ghost Value = { List Bool };

    ghost view = { λ d. d.marks.items };
}

impl DeadEnds {
    /// A mark for each node of this many steps. It takes a byte for each.
    pub fn new(alloc: Global, steps: u32) -> Result<DeadEnds, NoMemory>
        ensures { IfOk result (λ marks. length marks ≡ steps + 1) }
    {
        let marks = vec![in alloc; false; steps as usize + 1]?;
        Ok(DeadEnds { marks })
    }

    // Takes all marks away.
    fn clear(&mut self)
        ensures { length self.new ≡ length self.old }
    {
        for mark in self.marks.iter_mut() {
            *mark = false;
        }
    }

    // Whether the node has a mark.
    #[inline(always)]
    fn has(&self, node: u32) -> bool
        requires { node < length self.now }
        ensures { slice_get self.now node ≡ Some result }
    {
        self.marks[node as usize]
    }

    // Gives the node a mark.
    #[inline(always)]
    fn mark(&mut self, node: u32)
        requires { node < length self.old }
        ensures { self.new ≡ slice_set self.old node true }
    {
        self.marks[node as usize] = true;
    }
}

// Whether the edge has room, and a reduced cost of 0.
#[inline(always)]
fn is_tight(network: &Network, edge: Edge) -> bool
    requires { IsEdge network.now.instance edge }
    ensures { IsTrue result → IsTight network.now.instance network.now.flows (slice_index network.now.potentials) edge }
{
    let ends = network.ends(edge);
    let behind = ends.loss + network.potential(ends.tail);
    let ahead = ends.gain + network.potential(ends.head);
    ahead == behind && network.residual(edge) > 0
}

// An arc from the node along which nothing is lost, and which leads to no dead end.
fn arc_on(network: &Network, edges: &OuterEdges, dead: &DeadEnds, node: u32) -> Option<Edge>
    requires fits { IsState network.now }
    requires edges { AreListed network.now.instance edges.now (2 * length network.now.instance.arcs) }
    requires node { node ≤ network.now.instance.steps }
    requires marks { length dead.now ≡ network.now.instance.steps + 1 }
    ensures { IfSome result (LeadsOn network.now node) }
{
    let arcs = network.instance().arcs().len() as u32;
    let mut left = edges.first(node);
    while left > 0 {
        let number = left - 1;
        if number < arcs {
            let edge = Edge::Outer(number);
            if !dead.has(network.ends(edge).head) && is_tight(network, edge) {
                return Some(edge);
            }
        }
        left = edges.after(number);
    }
    None
}

// An edge onward from the node along which nothing is lost, and which leads to no dead end.
fn edge_on(network: &Network, edges: &OuterEdges, dead: &DeadEnds, node: u32) -> Option<Edge>
    requires fits { IsState network.now }
    requires edges { AreListed network.now.instance edges.now (2 * length network.now.instance.arcs) }
    requires node { node < network.now.instance.steps }
    requires marks { length dead.now ≡ network.now.instance.steps + 1 }
    ensures { IfSome result (LeadsOn network.now node) }
{
    match arc_on(network, edges, dead, node) {
        Some(edge) => Some(edge),
        None if dead.has(node + 1) => None,
        None if is_tight(network, Edge::Inner(node)) => Some(Edge::Inner(node)),
        None => None,
    }
}

// Writes a path onward to the last node, along which nothing is lost, to the beginning of the list, and answers how many
// edges it has. Dead ends on the way are marked.
fn find(
    network: &Network,
    edges: &OuterEdges,
    dead: &mut DeadEnds,
    path: &mut [Edge],
) -> Option<usize>
    requires fits { IsState network.now }
    requires edges { AreListed network.now.instance edges.now (2 * length network.now.instance.arcs) }
    requires marks { length dead.old ≡ network.now.instance.steps + 1 }
    requires path_room { length path.old ≡ network.now.instance.steps }
    ensures marks { length dead.new ≡ length dead.old }
    ensures within { IfSome result (λ len. len ≤ length path.new) }
    ensures path { IfSome result (λ len. IsOnward network.now network.now.instance.steps (take len path.new)) }
{
    let last = network.instance().steps();
    let mut node = 0;
    let mut len = 0;
    // Each iteration goes on to a node or marks one, and each mark takes one edge back: three times the nodes are enough.
    for _ in 0..3 * (last as u64 + 1) {
        if node == last {
            return Some(len);
        }
        match edge_on(network, edges, dead, node) {
            Some(edge) => {
                path[len] = edge;
                len += 1;
                node = network.ends(edge).head;
            }
            None => {
                dead.mark(node);
                if len == 0 {
                    return None;
                }
                len -= 1;
                node = network.ends(path[len]).tail;
            }
        }
    }
    None
}

// As many units as are left and each edge of the path has room for.
fn room_along(network: &Network, path: &[Edge]) -> u64
    requires tight { All (IsTight network.now.instance network.now.flows (slice_index network.now.potentials)) path.now }
    requires left { network.now.pushed < network.now.instance.units }
    ensures some { 0 < result }
    ensures units { network.now.pushed + result ≤ network.now.instance.units }
    ensures room { All (λ e. result ≤ residual network.now.instance network.now.flows e) path.now }
    ensures most { (more : ℕ) → All (λ e. more ≤ residual network.now.instance network.now.flows e) path.now
        → network.now.pushed + more ≤ network.now.instance.units → more ≤ result }
{
    let mut amount = network.left();
    for edge in path {
        amount = amount.min(network.residual(*edge));
    }
    amount
}

/// Pushes units onward along paths on which nothing is lost, until none is found or no unit is left.
pub(crate) fn push_onward(
    network: &mut Network,
    edges: &OuterEdges,
    dead: &mut DeadEnds,
    path: &mut [Edge],
)
    requires ready { IsReady network.old }
    requires edges { AreListed network.old.instance edges.now (2 * length network.old.instance.arcs) }
    requires marks { length dead.old ≡ network.old.instance.steps + 1 }
    requires path_room { length path.old ≡ network.old.instance.steps }
    ensures keeps { Keeps network.old network.new }
    ensures marks { length dead.new ≡ length dead.old }
{
    dead.clear();
    while network.left() > 0 {
        let Some(len) = find(network, edges, dead, path) else {
            return;
        };
        let amount = room_along(network, &path[..len]);
        network.push(&path[..len], amount);
    }
}
