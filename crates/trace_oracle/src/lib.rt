//! One record of an oracleGeneral trace: a time, an id, a size and the time of the next access, in 24 bytes.
//!
//! The rule is "A record of an oracleGeneral trace" in docs/DEFINITIONS.md.
#![tactic(auto)]

mod record;

pub use record::{parse, time};
