//! A request of a trace.

/// A request, and what it is to the bound.
#[derive(Clone, Copy, Debug, PartialEq, Eq)]
pub struct Request {
    /// The number of its object, in the order in which they were first asked for.
    pub number: u32,
    /// The clock there, which never falls from request to request.
    pub clock: u64,
    /// Whether it only fills.
    pub fills: bool,
    /// The size of its object in units.
    pub weight: u64,
    /// The gain times the denominator if it counts, else 0.
    pub gain: u128,
}
