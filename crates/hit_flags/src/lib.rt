//! The hits that a simulator claims, read beside their trace: a line with a flag for each request.
//!
//! The rules are "A line of a flag" and "The reading of claims" in docs/DEFINITIONS.md.
#![tactic(auto)]

mod claims;
mod fault;
mod laws;
mod line;
mod text;

pub use claims::{Claims, read_claims};
pub use fault::FlagFault;
pub use laws::flags_are_read;
pub use text::flags_text;
