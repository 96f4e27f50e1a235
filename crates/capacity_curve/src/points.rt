//! A point of the curve, and what is asked for at each.
use cache_model::Objective;

/// What is asked for at each capacity: what a hit earns, over which denominator the bound is, and how many requests
/// at first fill the cache and earn nothing.
#[derive(Clone, Copy, Debug, PartialEq, Eq)]
pub struct CurveTerms {
    pub objective: Objective,
    pub denominator: u64,
    pub warmup: u32,
}

/// What is known at a capacity in bytes: LRU's hits, the sizes of their objects, summed, and the numerator of the
/// bound, over the denominator.
#[derive(Clone, Copy, Debug, PartialEq, Eq)]
pub struct Point {
    pub capacity: u64,
    pub hits: u64,
    pub bytes: u128,
    pub upper: u128,
}
