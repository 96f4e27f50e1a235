//! What the lines of every form of trace share: words, fields, and what a line asks for.
//!
//! The rules are "Words", "Fields" and "What a line asks for" in docs/DEFINITIONS.md.
#![tactic(auto)]

mod commas;
mod gaps;
mod last;
mod line;

pub use commas::{field, first_field};
pub use gaps::{ends_word, first_word, is_blank, skip_gaps, word};
pub use last::trim_cr;
pub use line::{LineKind, Span};
