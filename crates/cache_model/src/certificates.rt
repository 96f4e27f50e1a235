//! What a certificate states.
ghost use Rattle.std.specs.Prelude.{◌↔◌, ◌≤◌, ◌^◌, IsTrue};
ghost use Rattle.cache_model.specs.declared.version.TheConstants.{CERT_VERSION, SHORT_VERSION};
ghost use Rattle.cache_model.specs.Certificates.{IsHeaderInRange, IsRecordInRange};

use crate::objects::Objective;
use crate::version::{CERT_VERSION, SHORT_VERSION};

/// The head of a certificate. The upper bound and the flow value are numerators over the denominator. The first
/// `warmup` requests fill the cache and earn nothing.
#[derive(Clone, Copy, Debug, PartialEq, Eq)]
pub struct Header {
    pub objective: Objective,
    pub capacity: u64,
    pub requests: u32,
    pub unit: u64,
    pub denominator: u64,
    pub exact: bool,
    pub upper: u128,
    pub flow: u128,
    pub lower: u128,
    pub warmup: u32,
    pub version: u8,
}

impl Header {
    // Whether the warm-up and the version are in their ranges.
    fn form_in_range(&self) -> bool
        ensures { IsTrue result ↔ ((self.now.warmup ≤ 2 ^ 25) × (CERT_VERSION ≤ self.now.version) × (self.now.version ≤ SHORT_VERSION)) }
    {
        self.warmup <= 1 << 25 && (CERT_VERSION..=SHORT_VERSION).contains(&self.version)
    }

    /// Whether each number is in the range that the text of a certificate has for it.
    pub fn in_range(&self) -> bool
        ensures { IsTrue result ↔ IsHeaderInRange self.now }
    {
        let counts = self.requests <= 1 << 25
            && (1..=1 << 56).contains(&self.capacity)
            && (1..=self.capacity).contains(&self.unit)
            && (1..=1 << 48).contains(&self.denominator);
        self.form_in_range()
            && counts
            && [self.upper, self.flow, self.lower]
                .iter()
                .all(|value| *value < 1 << 127)
    }
}

/// What a certificate says of one request: the price of its step, whether its object is kept, and the
/// flow of the interval that starts there.
#[derive(Clone, Copy, Debug, PartialEq, Eq)]
pub struct Record {
    pub price: u128,
    pub keep: bool,
    pub flow: u64,
}

impl Record {
    /// Whether the price and the flow are in the ranges that the text of a certificate has for them.
    pub fn in_range(&self) -> bool
        ensures { IsTrue result ↔ IsRecordInRange self.now }
    {
        self.price <= 1 << 126 && self.flow <= 1 << 48
    }
}
