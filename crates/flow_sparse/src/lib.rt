//! The exact solver of the flow on a chain where costs differ: successive shortest paths (Jewell 1958, Busacker and Gowen
//! 1960) with potentials (Tomizawa 1971, Edmonds and Karp 1972), over steps that are opened one after another, as constraints
//! are added only once they are broken (Dantzig, Fulkerson and Johnson 1954).
//!
//! Few steps have a price in a solution. So a step has room for the units only once it is open, and all times between two
//! open steps are one node. The solver begins with first prices, for which nothing is proved, opens the steps that have one,
//! and lets the flows suit them. Then it goes by rounds, until no step carries too much: it opens the fullest step of each gap
//! over which more flows than the units, and moves units along shortest paths until no node has an excess or a deficit. The
//! answer is a "Solution" of docs/DEFINITIONS.md from any first prices; "Open step" to "Repair" there are the rules.
//!
//! The contract of `Solver` is all that a caller needs. What stands in specs/ serves its proof.
#![tactic(auto)]

mod blocks;
mod edges;
mod grain;
mod listing;
mod lists;
mod loads;
mod network;
mod nodes;
mod numbering;
mod opening;
mod priced;
mod pushing;
mod relaxing;
mod repairing;
mod rounds;
mod route;
mod search;
mod solver;
mod sorting;
mod starting;
mod waking;

pub use flow_model::Solution;
pub use solver::Solver;
