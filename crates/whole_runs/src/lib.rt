//! Whole runs over devices in memory, in rows: what is asked for, which call of a device fails, and what is to come of it.
//!
//! The crates that test whole runs share it. No call here ends the process: a test ends at the answer, which names the
//! row.
//!
//! What a large value does at its end is proved once, in `drop` at its type, and not in each function that owns one.
#![tactic(auto)]

mod fault;
mod rows;
mod said;
mod tries;

pub use fault::RowFault;
pub use rows::{CYCLE_TRACE, Device, Ended, GOOD, PAIR, PAIR_CERT, Row, WORDS, words_of};
pub use said::Said;
pub use tries::{
    check, check_accepted, check_all, check_at, check_made_writes, check_reads,
    check_report_writes, done,
};
