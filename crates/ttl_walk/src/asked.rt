//! A request of an object.

/// A request of an object, and what is between it and the object's request before.
#[derive(Clone, Copy, Debug, PartialEq, Eq)]
pub struct Asked {
    /// The clock there, which never falls from request to request.
    pub clock: u64,
    /// Whether it only fills.
    pub fills: bool,
    /// The gain times the denominator if it counts, else 0.
    pub gain: u128,
    /// The weight times the prices of the steps since the request before.
    pub priced: u128,
}
