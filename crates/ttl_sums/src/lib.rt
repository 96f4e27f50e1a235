//! The bound of prices with a time to live, in one pass over a trace: it keeps an entry for each object, and none for a
//! request.
#![tactic(auto)]

mod entry;
mod request;
#[cfg(test)]
mod tests;
mod worths;

pub use request::Request;
pub use worths::TtlWorths;
