//! Lines of words and numbers, put together in a buffer of fixed size on the stack. They take no memory.
//!
//! The certificate and the texts for people are written by it. A line is "Line of a text" in docs/DEFINITIONS.md.
#![tactic(auto)]

mod line_text;

pub use line_text::LineText;
