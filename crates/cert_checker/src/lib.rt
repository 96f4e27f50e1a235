//! The check of a certificate, in one pass over the requests of a trace and the lines of the certificate. It keeps one
//! entry for each object.
//!
//! The rules are "The rules of a certificate" and "The walk of a check" in docs/DEFINITIONS.md.
//!
//! ```text
//! Checker, which is given requests and records
//!
//!     new ---> step or step_filling, once for each request that the header states ---> finish
//!                `---> a fault: the checker stays as it was
//!
//! check_streams, over a RequestReader and a CertReader of which no call was made; it ends at the first fault
//!
//!     header ---> next, of the trace
//!                   |---> a request: a record is left ---> next_record ---> its rules ---> next
//!                   `---> none: no record is left ---> finish_text ---> the rules of the end
//! ```
#![tactic(auto)]

mod checker;
mod counting;
mod end_check;
mod entries;
mod invalid;
mod keeper;
mod keeping;
mod laws;
mod record_check;
mod rules;
mod stepping;
mod summary;
mod verdict;
mod walking;
mod whole;

pub use cert_format::{Header, Record};
pub use checker::{Checker, StepFault};
pub use counting::{Passed, check_counted};
pub use invalid::InvalidKind;
pub use keeping::{Kept, check_and_keep, keep_all};
pub use laws::{faultless_is_valid, passing_is_valid};
pub use verdict::Verdict;
pub use walking::{CheckFault, check_streams};
pub use whole::check_all;
