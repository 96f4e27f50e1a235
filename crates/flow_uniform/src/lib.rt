//! The exact solver of instances in which all arcs that cost something cost the same.
//!
//! The rules are "Common cost", "Cut" and "Chosen prices" in docs/DEFINITIONS.md. The flows are Belady's: where more is
//! over a step than fits, the arc that ends last loses flow. Belady 1966. The steps at which arcs lost flow are then
//! looked at from the last to the first, and some of them have the common cost as their price.
#![tactic(auto)]

mod choosing;
mod entering;
mod evicting;
mod solver;
mod stepping;
mod uniform;

pub use flow_model::Solution;
pub use solver::Solver;
pub use uniform::common_cost;
