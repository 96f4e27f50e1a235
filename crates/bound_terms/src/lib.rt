//! What the words of the command line and the reports share: the modes and the windows of a bound, and why a word is
//! refused.
//!
//! The rules are "Prices and flows of the mode" and "First fault of the words" in docs/DEFINITIONS.md. The words stand in
//! `bound_words`, the texts in `bound_report`.
#![tactic(auto)]

mod modes;
mod words;

pub use modes::{Mode, Window};
pub use words::WordKind;
