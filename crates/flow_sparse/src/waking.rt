//! An edge that gets room joins the chain of woken edges out of its tail.
ghost use Rattle.std.specs.Prelude.{◌≡◌, ℕ, ◌*◌, ◌<◌, All, IfNone, IfOk, IfSome, length};
ghost use Rattle.flow_model.specs.Networks.{IsEdge};
ghost use Rattle.flow_model.specs.Pushes.{opposite};
ghost use Rattle.flow_sparse.specs.Ranges.{WasWoken, number_of};
ghost use Rattle.flow_sparse.specs.Searches.{IsListed, IsWokenIfShut, AreWaysBackWoken};
ghost use Rattle.flow_sparse.specs.States.{IsState};

use crate::lists::EdgeLists;
use crate::network::Network;
use bound_base::NoMemory;
use flow_model::Edge;
use flow_parts::outer_edge;

impl EdgeLists {
    // Adds the outer edge of that number to the chain of woken edges out of its tail.
    fn wake(&mut self, network: &Network, number: u32) -> Result<(), NoMemory>
        requires fits { IsState network.now }
        requires number { number < 2 * length network.now.instance.arcs }
        requires lists { IsListed network.now self.old }
        ensures lists { IfOk result (λ done. IsListed network.now self.new) }
        ensures stays { IfOk result (λ done. (k : ℕ) → WasWoken self.old.woken k → WasWoken self.new.woken k) }
        ensures woken { IfOk result (λ done. WasWoken self.new.woken number) }
    {
        let ends = network.ends(outer_edge(network.arc_count(), number));
        self.chain(ends.tail, number, ends.head)
    }

    // Adds the edge to the chain of its tail, if it is an outer one and has no room yet.
    fn wake_shut(&mut self, network: &Network, edge: Edge) -> Result<(), NoMemory>
        requires fits { IsState network.now }
        requires edge { IsEdge network.now.instance edge }
        requires lists { IsListed network.now self.old }
        ensures lists { IfOk result (λ done. IsListed network.now self.new) }
        ensures stays { IfOk result (λ done. (k : ℕ) → WasWoken self.old.woken k → WasWoken self.new.woken k) }
        ensures woken { IfOk result (λ done. IsWokenIfShut network.now self.new.woken edge) }
    {
        if network.residual(edge) > 0 {
            return Ok(());
        }
        let Some(number) = outer_number(network, edge) else {
            return Ok(());
        };
        self.wake(network, number)
    }

    /// Adds to their chains the opposites of the edges of the path that have no room yet, but will once units go along it.
    pub fn wake_path(&mut self, network: &Network, path: &[Edge]) -> Result<(), NoMemory>
        requires fits { IsState network.now }
        requires edges { All (IsEdge network.now.instance) path.now }
        requires lists { IsListed network.now self.old }
        ensures lists { IfOk result (λ done. IsListed network.now self.new) }
        ensures woken { IfOk result (λ done. AreWaysBackWoken network.now self.new.woken path.now) }
    {
        for at in 0..path.len() {
            self.wake_shut(network, opposite(path[at]))?;
        }
        Ok(())
    }
}

// The number of an outer edge.
fn outer_number(network: &Network, edge: Edge) -> Option<u32>
    requires fits { IsState network.now }
    requires edge { IsEdge network.now.instance edge }
    ensures number { IfSome result (λ number. number ≡ number_of (length network.now.instance.arcs) edge) }
    ensures is_edge { IfSome result (λ number. number < 2 * length network.now.instance.arcs) }
    ensures none { IfNone result (number_of (length network.now.instance.arcs) edge ≡ 2 * length network.now.instance.arcs) }
{
    match edge {
        Edge::Outer(arc) => Some(arc),
        Edge::OuterBack(arc) => Some(network.arc_count() + arc),
        Edge::Inner(_) => None,
        Edge::InnerBack(_) => None,
    }
}

// The edge the other way.
fn opposite(edge: Edge) -> Edge
    ensures { result ≡ opposite edge }
{
    match edge {
        Edge::Inner(step) => Edge::InnerBack(step),
        Edge::InnerBack(step) => Edge::Inner(step),
        Edge::Outer(arc) => Edge::OuterBack(arc),
        Edge::OuterBack(arc) => Edge::Outer(arc),
    }
}
