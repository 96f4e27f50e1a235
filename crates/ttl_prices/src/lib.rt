//! The bound that one price gives with a time to live, of a trace in memory, and a price at which it is low.
#![tactic(auto)]

mod bound;
mod low;
mod requests;
mod sample;
mod search;
mod timed;

pub use bound::bound_at;
pub use low::low_price;
pub use search::LowPrice;
pub use timed::TimedTrace;
