//! How old claimed hits are, if objects expire a time after they were written, and which of them are possible then.
//!
//! A flagged request that counts writes nothing, so its object is at least as old as since its last request that is not
//! flagged or only fills. Flags are possible exactly if some allowed contents have each flagged object, and no older than the
//! time to live.
#![tactic(auto)]

mod ages;
mod laws;

pub use ages::{TooOld, first_too_old};
pub use laws::{
    claimed_is_bounded_with_ttl, claimed_is_scored_with_ttl, fresh_is_possible, possible_is_fresh,
};
