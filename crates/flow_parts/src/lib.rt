//! What the solvers of the flow on a chain share: a heap of ranked keys, a queue of nodes by their distances, and the
//! lists of arcs by their ends.
//!
//! The rule of the heap is "Map of ranks" in docs/DEFINITIONS.md. Each takes its memory at once, so that a solver takes
//! none while it solves. The definitions of a search, of its tree and of the way back serve the proofs of those solvers
//! that search.
#![tactic(auto)]

mod heap;
mod outer_edges;
mod queue;

pub use heap::Heap;
pub use outer_edges::{OuterEdges, outer_edge};
pub use queue::Queue;
