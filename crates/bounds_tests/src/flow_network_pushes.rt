//! A small network. The numbers were worked out by hand.
ghost use Rattle.std.specs.Prelude.{◌≡◌, [], ◌∷◌, length, IfOk};

use bound_base::NoMemory;
use compared::same;
use flow_network::{Edge, Network};
use relaxation::{Instance, OuterArc};
use std::alloc::Global;

// Two steps with room for three units, and an arc over both that holds two.
fn over_both(alloc: Global) -> Result<Instance, NoMemory>
    ensures { IfOk result (λ i. i ≡ record { steps = 2; units = 3; arcs = record { start = 0; end = 2; weight = 2; cost = 5 } ∷ [] }) }
{
    let arcs = [OuterArc {
        start: 0,
        end: 2,
        weight: 2,
        cost: 5,
    }];
    Instance::from_arcs(alloc, 2, 3, &arcs)
}

// What is left, and the room of the second inner edge and of the arc, each onward and back.
fn room(network: &Network<'_>) -> [u64; 5]
    requires { (network.now.instance.steps ≡ 2) × (length network.now.instance.arcs ≡ 1) }
{
    [
        network.left(),
        network.residual(Edge::Inner(1)),
        network.residual(Edge::InnerBack(1)),
        network.residual(Edge::Outer(0)),
        network.residual(Edge::OuterBack(0)),
    ]
}

// The reduced cost of the arc, onward and back.
fn reduced(network: &Network<'_>) -> [i128; 2]
    requires { (network.now.instance.steps ≡ 2) × (length network.now.instance.arcs ≡ 1) }
{
    [
        network.reduced(Edge::Outer(0)),
        network.reduced(Edge::OuterBack(0)),
    ]
}

// The numbers are worked out by hand.
#[test]
fn a_unit_along_the_arc_can_be_taken_back(rt: HostRuntime) {
    let alloc = rt.alloc();
    let instance = over_both(alloc).expect(&rt, "memory");
    let mut network = Network::new(alloc, &instance).expect(&rt, "memory");
    same("the room at first", room(&network), [3, 3, 0, 2, 0]).expect(&rt, "a row");
    network.set_potential(0, 7);
    let costs = (network.potential(0), reduced(&network));
    same("the reduced costs", costs, (7, [-2, 2])).expect(&rt, "a row");
    network.push(&[Edge::Outer(0)], 1);
    same("the room then", room(&network), [2, 3, 0, 1, 1]).expect(&rt, "a row");
    let flows = network.into_flows();
    same("the flows", flows.as_slice(), [1].as_slice()).expect(&rt, "a row");
}
