//! A tree of sums: at each place a number is set, and the numbers of a range of places are summed.
//!
//! Both take time in the logarithm of the number of places. The nodes stand in one slice, two for each place.
#![tactic(auto)]

mod number;
mod tree;

pub use number::SumNumber;
pub use tree::{set_leaf, sum_between};
