//! What tests find at a row of a table, beside what is wanted there.
//!
//! A comparison in a test's own body would be proved there anew, with the text that it prints. No call here ends the
//! process: a test ends at the answer, which names the row.
#![tactic(auto)]

mod rows;

pub use rows::{Differs, Fails, holds, same};
