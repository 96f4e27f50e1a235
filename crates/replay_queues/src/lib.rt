//! The policies that keep their objects in a line: CLOCK, SIEVE and S3-FIFO.
//!
//! Their rules are those of docs/DEFINITIONS.md. Each keeps its objects in one line of linked nodes, which any object can
//! leave in constant time, and a byte for every object up to the greatest that came in, so that a hit touches no queue.
#![tactic(auto)]

mod clock;
mod hand;
mod line;
mod parts;
mod s3fifo;
mod sieve;
mod table;
mod three_queues;

pub use clock::Clock;
pub use s3fifo::S3Fifo;
pub use sieve::Sieve;
pub use table::room_for;
