//! The residual network of an instance: flows on its arcs and beside them, and a potential of each node.
//!
//! The rules are "Network", "Potential" and "Push" in docs/DEFINITIONS.md. The cost of an arc is what one unit of its
//! flow earns, so the wanted flow is the one of greatest total cost. With every cost negated it is the flow of least
//! cost.
#![tactic(auto)]

mod ends;
mod network;
mod pushing;

pub use ends::{Ends, ends_of};
pub use flow_model::Edge;
pub use network::Network;
