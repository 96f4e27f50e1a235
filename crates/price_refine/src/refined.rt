//! What a refinement gives.
ghost use Rattle.std.specs.Prelude.{◌≡◌};

use std::marker::Model;

/// A price for each step, over the denominator, and the numerator of the bound that they give.
#[derive(Debug, Drop)]
pub struct Refined {
    pub(crate) prices: Vec<u128>,
    pub(crate) upper: u128,
}

impl Model for Refined {
    ghost use Rattle.price_refine.specs.Refinements.{Refinement};

    ghost Value = { Refinement };

    ghost view = { λ r. record { prices = r.prices.items; upper = r.upper } };
}

impl Refined {
    /// The price of each step, over the denominator.
    pub fn prices(&self) -> &[u128]
        ensures { result.now ≡ self.now.prices }
    {
        &self.prices
    }

    /// The bound of the prices, over the denominator.
    pub fn upper(&self) -> u128
        ensures { result ≡ self.now.upper }
    {
        self.upper
    }
}
