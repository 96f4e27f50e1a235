//! Edges of the residual network.

/// An edge of the residual network, by the number of its step or of its arc. The nodes are 0 to the number of
/// steps.
#[derive(Clone, Copy, Debug, PartialEq, Eq)]
pub enum Edge {
    /// From the node of a step to the next one, beside the arcs.
    Inner(u32),
    /// Back over a step.
    InnerBack(u32),
    /// From the start of an arc to its end.
    Outer(u32),
    /// Back along an arc.
    OuterBack(u32),
}
