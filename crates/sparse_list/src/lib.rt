//! A list of values by number, most of which are none. It takes 4 bytes for each number up to the greatest that was put, and
//! a cell for each number that has a value.
#![tactic(auto)]

mod list;
mod slots;

pub use list::SparseList;
pub use slots::SlotList;
