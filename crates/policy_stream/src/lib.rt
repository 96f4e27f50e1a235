//! Policies that are told the requests of a trace one after another, as they are read, with what leaves before each of them.
//!
//! The rules are "Stale request" and "Policies" in docs/DEFINITIONS.md.
#![tactic(auto)]

mod request;
mod stream;

pub use request::Request;
pub use stream::{MOST_OBJECTS, PolicyStream};
