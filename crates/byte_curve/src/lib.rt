//! LRU's hits at many capacities, of objects of mixed sizes, from one pass over the requests.
//!
//! After Mattson, Gecsei, Slutz and Traiger, 1970, whose distance counts objects. Here it sums their sizes, and of
//! objects that are larger than the capacity it takes none, since LRU doesn't let them in.
#![tactic(auto)]

mod laws;
mod pass;
mod sums;

pub use laws::distances_are_of_lru;
pub use pass::{Hits, greatest_size, lru_hits};
pub use sums::ByteSums;
