//! What a report of bounds states.
use bound_terms::Mode;
use cache_model::Header;

/// What a report of bounds states: the header of the certificate, how many different objects and eligible
/// intervals there are and how many requests were dropped, the price, which is 0 but in the constant mode, and the bytes
/// that the schedule writes, if they are counted.
#[derive(Clone, Copy, Debug, PartialEq, Eq)]
pub struct BoundFacts {
    pub header: Header,
    pub objects: u32,
    pub dropped: u64,
    pub mode: Mode,
    pub price: u128,
    pub intervals: u32,
    pub written: Option<u128>,
}
