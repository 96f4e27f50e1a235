//! Outer edges as they stand in lists.
//!
//! They are numbered: first come the arcs, and then their back edges.

/// An edge that had room when the lists were made, with the node that it leads to and its length then: its negated reduced
/// cost, as far as 64 bits hold that.
#[derive(Clone, Copy)]
pub(crate) struct ListedEdge {
    pub listed_length: u64,
    pub head: u32,
    pub number: u32,
}

/// An edge that got room after the lists were made, with the node that it leads to. Those out of one node are a chain:
/// `before` counts the edges up to the one before it in the chain, and is 0 if it is the first.
#[derive(Clone, Copy)]
pub(crate) struct WokenEdge {
    pub before: usize,
    pub head: u32,
    pub number: u32,
}
