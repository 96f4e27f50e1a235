//! What a push writes.
ghost use Rattle.std.specs.Prelude.{◌≡◌, All};
ghost use Rattle.flow_model.specs.Pushes.{IsSimple, push_edge, push_path};
ghost use Rattle.flow_network.specs.States.{HasRoomFor};

use flow_model::Edge;

// Adds the amount to the flow of a forward edge, and takes it from the flow behind a back edge.
fn push_edge(edge: Edge, amount: u64, outer: &mut [u64], inner: &mut [u64])
    requires { HasRoomFor amount (record { outer = outer.old; inner = inner.old }) edge }
    ensures { record { outer = outer.new; inner = inner.new } ≡ push_edge amount (record { outer = outer.old; inner = inner.old }) edge }
{
    match edge {
        Edge::Inner(step) => inner[step as usize] += amount,
        Edge::InnerBack(step) => inner[step as usize] -= amount,
        Edge::Outer(arc) => outer[arc as usize] += amount,
        Edge::OuterBack(arc) => outer[arc as usize] -= amount,
    }
}

/// Pushes the amount over each edge of the path.
pub(crate) fn push_along(path: &[Edge], amount: u64, outer: &mut [u64], inner: &mut [u64])
    requires room { All (HasRoomFor amount (record { outer = outer.old; inner = inner.old })) path.now }
    requires simple { IsSimple path.now }
    ensures { record { outer = outer.new; inner = inner.new } ≡ push_path amount (record { outer = outer.old; inner = inner.old }) path.now }
{
    for edge in path {
        push_edge(*edge, amount, outer, inner);
    }
}
