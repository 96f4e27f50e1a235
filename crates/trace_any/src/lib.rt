//! The requests of a source: its lines or its records in the form of a trace, whatever the pieces in which they come.
//!
//! The rules are "A line of a trace", "A record of an oracleGeneral trace", "The reading of a trace", "Stale request", "Volume" and "What is to come" in docs/DEFINITIONS.md.
#![tactic(auto)]

mod content;
mod fault;
mod format;
mod loading;
mod notes;
mod pieces;
mod progress;
mod requests;
mod stream;
mod volumes;

pub use fault::TraceFault;
pub use format::{Format, Layout, Limits};
pub use freshness::{Freshness, StaleRequests};
pub use loading::{builder_for, load, push_given};
pub use notes::TraceNotes;
pub use requests::RequestReader;
pub use stream::RequestStream;
