//! What the program says to a person on the standard error: what a refusal means and what to do about it, and what looks
//! odd in a run that ended well.
//!
//! The lines of the report, on which scripts rest, stand in bound_report; these words may change.
#![tactic(auto)]

mod certificates;
mod devices;
mod escape;
mod first_bytes;
mod pages;
mod recent;
mod refusals;
mod reports;
mod sizes;
mod starts;
mod told;
mod traces;
mod watched;
mod words;

pub use devices::{Seen, device_advice};
pub use escape::{escaped, quoted};
pub use pages::{EXAMPLES, PURPOSE, Page, VERSION, page_of, usage_of};
pub use refusals::{Devices, advice_on, refusal_line};
pub use reports::oddities_of;
pub use told::Told;
pub use watched::Watched;
pub use words::Words;
