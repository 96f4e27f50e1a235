//! Bounds of one pass over a trace: it keeps an entry for each object, and none for a request.
//!
//! Each request that counts and whose object was asked for before is a span, as far as it is from the request before.
//! The spans are added to sums of areas, from which the least bound comes at each of many capacities.
#![tactic(auto)]

mod sweep;

pub use sweep::SweepBounds;
