//! The curve of hits: LRU's hits at every number of slots, from one pass over the requests.
//!
//! After Mattson, Gecsei, Slutz and Traiger, 1970: a request hits in a cache of this many slots exactly if its stack
//! distance is no more. The latest request of each object carries a mark, and the distance is a count of marks.
#![tactic(auto)]

mod laws;
mod marks;
mod pass;
mod points;

pub use laws::curve_is_of_lru;
pub use marks::Marks;
pub use pass::{CurveFault, curve};
pub use points::Curve;
