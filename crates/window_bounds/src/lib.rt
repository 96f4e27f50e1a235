//! Prices and flows of an instance by windows: each window is solved by itself.
//!
//! The rules are "Windows of an instance" and "Flows over windows" in docs/DEFINITIONS.md. The prices of the windows,
//! one after another, bound the whole. One window at least as wide as the steps is the whole.
#![tactic(auto)]

mod guess;
mod laws;
mod solution;
mod solving;

pub use laws::one_window_is_whole;
pub use solution::WindowSolution;
pub use solving::solve_windows;
