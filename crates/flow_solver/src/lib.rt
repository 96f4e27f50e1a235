//! The exact solver of the flow on a chain, by successive shortest paths (Jewell 1958, Busacker and Gowen 1960) with
//! potentials (Tomizawa 1971, Edmonds and Karp 1972).
//!
//! The rules are "Solution" and "Potential" in docs/DEFINITIONS.md. Each round finds how far the nodes are from the
//! first, with the negated reduced costs of the edges as lengths, lowers the potentials by it, and pushes units along
//! a path on which nothing is then lost, and along all that lead only onward and lose nothing either. When all units
//! are pushed, the falls of the potentials are prices that the flows reach.
#![tactic(auto)]

mod onward;
mod rounds;
mod route;
mod search;
mod solver;

pub use flow_model::Solution;
pub use flow_parts::Heap;
pub use solver::Solver;
