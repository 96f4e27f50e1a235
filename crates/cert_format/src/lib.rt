//! The text of a certificate, both ways: a header, records and the end are written to a sink, and read from a source
//! line by line.
//!
//! The rules are "The text of a certificate" and "The reading of a certificate" in docs/DEFINITIONS.md. The lines,
//! in two versions of the text:
//!
//! | line | version 1 | version 2 | the number |
//! |---|---|---|---|
//! | 1 | `cache-bound-certificate 1` | `cache-bound-certificate 2` | |
//! | 2 | `objective object` or `objective bytes` | the same | |
//! | 3 | `capacity n` | the same | 1 to 2^56 |
//! | 4 | `requests n` | the same | 0 to 2^25 |
//! | 5 | `unit n` | the same | 1 to the capacity |
//! | 6 | `denominator n` | the same | 1 to 2^48 |
//! | 7 | `form exact` or `form plain` | the same | |
//! | 8, 9, 10 | `upper n`, `flow n`, `lower n` | the same | 0 to 2^127 - 1 |
//! | 11, with a warm-up | `warmup n` | the same | 1 to 2^25 |
//! | 11 or 12 | `records` | the same | |
//! | one a request | `price keep flow` | the same if the price is new; else `keep flow` | 0 to 2^126; 0, 1; 0 to 2^48 |
//! | the last | `end` | the same | |
//!
//! A price is new if it differs from the one before, which is 0 for the first record.
//!
//! ```text
//! CertReader over a Source
//!
//!     new ---> header ---> next_record, once for each record ---> finish_text
//!     a fault stays: each later call answers it again, and reads nothing
//!
//! CertWriter over a Sink
//!
//!     begin ---> push, once for each record ---> end
//!     a call that fails has written a prefix of its lines, and not all
//! ```
#![tactic(auto)]

mod fault;
mod header;
mod laws;
mod line;
mod lines;
mod number;
mod reader;
mod records;
mod text;
mod writer;
mod writing;

pub use cache_model::{Header, Objective, Record};
pub use fault::{CertFault, TextKind};
pub use header::{Counts, objective_of, read_counts};
pub use laws::{read_is_in_range, read_is_written, written_is_read};
pub use line::{cut, keep_of, number_after, word_after};
pub use lines::{in_line, read_choice, read_end, read_fixed, read_number, whole_text};
pub use number::number as number_of;
pub use reader::CertReader;
pub use records::{Records, cert_of};
pub use text::objective_line;
pub use writer::CertWriter;
pub use writing::{write_end, write_header, write_record};
