//! Runs of objects that expire a time after they were written: what comes of the whole trace.
//!
//! The rules are "Bound with a time to live" and "Report of bounds" in docs/DEFINITIONS.md.
#![tactic(auto)]

mod bounds;

pub use bounds::{TtlTexts, texts_with_ttl};
