//! Rounds: each pushes units along a path on which nothing is lost.
ghost use Rattle.std.specs.Prelude.{◌≡◌, ◌+◌, ◌*◌, ◌<◌, length};
ghost use Rattle.flow_network.specs.States.{IsState};
ghost use Rattle.flow_parts.specs.OuterEdges.{AreListed};
ghost use Rattle.flow_solver.specs.Rounds.{Advances};
ghost use Rattle.flow_solver.specs.Searches.{AreLoweredToLast, CanLowerToLast, HasSearchRoom, IsReady};

use crate::onward::{DeadEnds, push_onward};
use crate::route::trace;
use crate::search::Search;
use flow_network::{Edge, Network};
use flow_parts::OuterEdges;

// Lowers each potential by what the node is nearer than the last.
fn lower(network: &mut Network, search: &Search)
    requires fits { IsState network.old }
    requires each_distance { length search.now.distances ≡ network.old.instance.steps + 1 }
    requires enough { CanLowerToLast network.old search.now.distances }
    ensures lowered { AreLoweredToLast network.old search.now.distances network.new.potentials }
    ensures same { network.new ≡ record network.old { potentials = network.new.potentials } }
    ensures fits { IsState network.new }
{
    let last = network.instance().steps();
    let limit = search.distance(last);
    if limit == 0 {
        return;
    }
    for node in 0..last + 1 {
        let fall = limit - search.distance(node).min(limit);
        let potential = network.potential(node);
        network.set_potential(node, potential - fall);
    }
}

/// Pushes units along a path on which nothing is lost, as many as it takes, and then along those that lead onward.
pub(crate) fn augment(
    network: &mut Network,
    edges: &OuterEdges,
    search: &mut Search,
    dead: &mut DeadEnds,
    path: &mut [Edge],
)
    requires ready { IsReady network.old }
    requires edges { AreListed network.old.instance edges.now (2 * length network.old.instance.arcs) }
    requires room { HasSearchRoom network.old.instance.steps search.old }
    requires marks { length dead.old ≡ network.old.instance.steps + 1 }
    requires path_room { length path.old ≡ network.old.instance.steps }
    requires left { network.old.pushed < network.old.instance.units }
    ensures advances { Advances network.old network.new }
    ensures room { HasSearchRoom network.old.instance.steps search.new }
    ensures marks { length dead.new ≡ length dead.old }
{
    search.run(network, edges);
    lower(network, search);
    let route = trace(network, search, path);
    network.push(&path[route.start..], route.amount);
    push_onward(network, edges, dead, path);
}
