//! What is asked of a trace.
use crate::objects::Objective;

/// What a bound is asked for: what a hit earns, the capacity in bytes, and the warm-up. The first `warmup` requests
/// fill the cache and earn nothing.
#[derive(Clone, Copy, Debug, PartialEq, Eq)]
pub struct Terms {
    pub objective: Objective,
    pub capacity: u64,
    pub warmup: u32,
}
