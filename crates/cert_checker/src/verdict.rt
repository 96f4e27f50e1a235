//! What a check says at its end.

use cert_format::Header;

/// A yes: the header of a valid certificate, and how many different objects the trace has.
#[derive(Clone, Copy, Debug, PartialEq, Eq)]
pub struct Verdict {
    pub header: Header,
    pub objects: u32,
}

/// The bound of the prices and the value of the flows, over the denominator, and the score of the keeps.
#[derive(Clone, Copy)]
pub(crate) struct Counted {
    pub upper: u128,
    pub flow: u128,
    pub lower: u128,
}
