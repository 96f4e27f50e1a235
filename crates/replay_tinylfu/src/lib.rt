//! W-TinyLFU: a policy that lets an object in if it was asked for more often than those that it displaces.
//!
//! Its rule is that of docs/DEFINITIONS.md. Its three queues are one ring, in which the objects that are held have nodes.
#![tactic(auto)]

mod counts;
mod moves;
mod ring;
mod room;
mod wtinylfu;

pub use wtinylfu::WTinyLfu;
