//! A list of bits, which takes a bit of memory for each.
#![tactic(auto)]

mod list;

pub use list::BitList;
