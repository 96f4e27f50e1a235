//! The arcs of an instance by what passes through its windows, so that a window is solved over few of them.
//!
//! Most arcs that meet a narrow window pass through all of it, and each unit of such an arc earns the same in every
//! window. The rules are "Passing arc", "Order of arcs" and "Kept arcs" in docs/DEFINITIONS.md.
#![tactic(auto)]

mod arcs;
mod events;
mod order;
mod passing;
mod places;
mod sums;

pub use arcs::{KeptRanks, WindowArcs};
