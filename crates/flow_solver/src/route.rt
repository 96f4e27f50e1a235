//! The path to the last node that a search found.
ghost use Rattle.std.specs.Prelude.{◌≡◌, ℕ, ◌+◌, ◌≤◌, ◌<◌, All, length, drop, slice_index};
ghost use Rattle.flow_model.specs.Networks.{IsTight};
ghost use Rattle.flow_model.specs.Pushes.{CanPush};
ghost use Rattle.flow_network.specs.States.{IsState};
ghost use Rattle.flow_solver.specs.Searches.{LeadsBackToFirst};

use crate::search::Search;
use flow_network::{Edge, Network};

/// Where a path begins in its list, and how many units can go along it.
#[derive(Clone, Copy)]
pub(crate) struct Route {
    pub start: usize,
    pub amount: u64,
}

/// Writes the path to the last node to the end of the list.
pub(crate) fn trace(network: &Network, search: &Search, path: &mut [Edge]) -> Route
    requires fits { IsState network.now }
    requires back { LeadsBackToFirst network.now search.now }
    requires path_room { length path.old ≡ network.now.instance.steps }
    requires left { network.now.pushed < network.now.instance.units }
    ensures within { result.start ≤ length path.new }
    ensures tight { All (IsTight network.now.instance network.now.flows (slice_index network.now.potentials)) (drop result.start path.new) }
    ensures can { CanPush network.now.instance network.now.flows (drop result.start path.new) result.amount }
    ensures some { 0 < result.amount }
    ensures units { network.now.pushed + result.amount ≤ network.now.instance.units }
    ensures most { (more : ℕ) → CanPush network.now.instance network.now.flows (drop result.start path.new) more
        → network.now.pushed + more ≤ network.now.instance.units → more ≤ result.amount }
{
    let mut node = network.instance().steps();
    let mut start = path.len();
    let mut amount = network.left();
    while node > 0 {
        let edge = search.parent(node);
        amount = amount.min(network.residual(edge));
        start -= 1;
        path[start] = edge;
        node = network.ends(edge).tail;
    }
    Route { start, amount }
}
