//! The walk of one object that expires a time after it was written: its greatest worth so far, in amortised constant time
//! a request.
#![tactic(auto)]

mod asked;
mod laws;
mod object_walk;
mod starts;

pub use asked::Asked;
pub use laws::walks_over_requests;
pub use object_walk::ObjectWalk;
