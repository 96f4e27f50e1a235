//! Arcs over steps.

/// An arc over the steps from `start` to the one before `end`. Its flow is at most the weight, in units, and each
/// unit of it earns the cost.
#[derive(Clone, Copy, Debug, PartialEq, Eq)]
pub struct OuterArc {
    pub start: u32,
    pub end: u32,
    pub weight: u64,
    pub cost: u128,
}
