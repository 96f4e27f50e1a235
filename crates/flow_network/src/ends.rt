//! The ends and the cost of an edge.
ghost use Rattle.std.specs.Prelude.{◌≡◌};
ghost use Rattle.flow_model.specs.Networks.{tail, head, gain, loss};
ghost use Rattle.flow_network.specs.States.{FitsArcs};

use flow_model::{Edge, OuterArc};

/// The ends of an edge, its tail and its head, and what a unit along it earns and gives up.
#[derive(Clone, Copy, Debug, PartialEq, Eq)]
pub struct Ends {
    pub tail: u32,
    pub head: u32,
    pub gain: u128,
    pub loss: u128,
}

/// The ends of an edge of a network that has these arcs, and what a unit along it earns and gives up.
#[inline(always)]
pub fn ends_of(arcs: &[OuterArc], edge: Edge) -> Ends
    requires { FitsArcs arcs.now edge }
    ensures tail { result.tail ≡ tail arcs.now edge }
    ensures head { result.head ≡ head arcs.now edge }
    ensures gain { result.gain ≡ gain arcs.now edge }
    ensures loss { result.loss ≡ loss arcs.now edge }
{
    match edge {
        Edge::Inner(step) => Ends {
            tail: step,
            head: step + 1,
            gain: 0,
            loss: 0,
        },
        Edge::InnerBack(step) => Ends {
            tail: step + 1,
            head: step,
            gain: 0,
            loss: 0,
        },
        Edge::Outer(arc) => {
            let arc = arcs[arc as usize];
            Ends {
                tail: arc.start,
                head: arc.end,
                gain: arc.cost,
                loss: 0,
            }
        }
        Edge::OuterBack(arc) => {
            let arc = arcs[arc as usize];
            Ends {
                tail: arc.end,
                head: arc.start,
                gain: 0,
                loss: arc.cost,
            }
        }
    }
}
