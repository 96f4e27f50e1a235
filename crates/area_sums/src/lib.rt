//! Sums of areas by classes, from which comes at each capacity the least bound over edges.
//!
//! A bound that one pass over a trace can sum up: hits are counted in the order of their areas until the area of the
//! cache is used up. The edges that are tried are short numbers, and a span is below one exactly if its class is.
#![tactic(auto)]

mod bound;
mod group;
mod least;
mod pages;
mod places;
mod short;
mod sums;

pub use bound::{CapacityBounds, EdgeBound};
pub use sums::AreaSums;
