//! The flow on a chain of steps: instances, their prices and schedules, their residual networks, and the laws that
//! are proved of them.
//!
//! The rules are "Instance" to "Push" in docs/DEFINITIONS.md. A schedule earns at most the value of any prices, and
//! where both are equal the prices are least and the schedule is best. The crates above cite the definitions in
//! their contracts.
#![tactic(auto)]

mod arcs;
mod chain;
mod edges;
mod laws;
mod solution;

pub use arcs::OuterArc;
pub use chain::Instance;
pub use edges::Edge;
pub use laws::{
    equal_values, exact_is_least, rounded_is_near, schedules_are_below_prices, solutions_are_best,
    windows_are_above,
};
pub use solution::Solution;
