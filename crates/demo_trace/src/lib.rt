//! The trace of a demo: requests drawn by a generator, and their lines as a webcache trace.
//!
//! The rules are "The trace of a demo" and "A line of a webcache trace" in docs/DEFINITIONS.md.
#![tactic(auto)]

mod drawing;
mod laws;
mod lines;

pub use drawing::demo_trace;
pub use laws::written_is_read;
pub use lines::webcache_text;
