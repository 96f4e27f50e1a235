//! Whether the hits that a simulator claims are possible, and the least bytes that they must write.
//!
//! The rules are "Possible flags", "Stale request", "What flags claim" and "Least written bytes of flags" in
//! docs/DEFINITIONS.md. It goes over the trace at most four times, and takes no memory.
#![tactic(auto)]

mod causes;
mod claims;
mod judging;
mod writes;

pub use causes::Impossible;
pub use claims::Claimed;
pub use judging::judge;
