//! Nodes that are linked both ways, by the numbers of their objects. They take 4 bytes for each object up to the greatest that
//! came in, and 24 for each that is there.
#![tactic(auto)]

mod nodes;

pub use nodes::{Node, Nodes};
