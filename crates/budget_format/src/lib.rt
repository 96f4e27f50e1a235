//! The text of a certificate with a budget of bytes to write, both ways: its lines are written to a sink, and read from
//! a source.
//!
//! The rules are "The text of a certificate with a budget" in docs/DEFINITIONS.md.
#![tactic(auto)]

mod certificates;
mod header;
mod laws;
mod line;
mod lines;
mod reader;
mod text;
mod writer;
mod writing;

pub use cache_model::Objective;
pub use cert_format::{CertFault, TextKind};
pub use certificates::{Budget, BudgetHeader, BudgetRecord, TenthLine};
pub use header::read_header;
pub use laws::{read_is_in_range, read_is_written, written_is_read};
pub use line::{budget_after, record_after, tenth_after};
pub use lines::read_record;
pub use reader::BudgetReader;
pub use writer::BudgetWriter;
pub use writing::{write_header, write_record};
