//! Prices and flows of an instance.
ghost use Rattle.std.specs.Prelude.{◌≡◌};

use std::marker::Model;

/// A price of each step and a flow of each arc. What a solver or the windows answer says how far their values agree.
#[derive(Debug, Drop)]
pub struct Solution {
    prices: Vec<u128>,
    flows: Vec<u64>,
}

impl Model for Solution {
    ghost use Rattle.flow_model.specs.Solutions.{Answer};

    ghost Value = { Answer };

    ghost view = { λ s. record { prices = s.prices.items; flows = s.flows.items } };
}

impl Solution {
    /// These prices and flows.
    pub fn new(prices: Vec<u128>, flows: Vec<u64>) -> Solution
        ensures { result ≡ record { prices = prices.items; flows = flows.items } }
    {
        Solution { prices, flows }
    }

    /// The price of each step.
    pub fn prices(&self) -> &[u128]
        ensures { result.now ≡ self.now.prices }
    {
        &self.prices
    }

    /// The flow of each arc, in the order of the arcs.
    pub fn flows(&self) -> &[u64]
        ensures { result.now ≡ self.now.flows }
    {
        &self.flows
    }

    /// The prices of the steps and the flows of the arcs.
    pub fn into_parts(self) -> (Vec<u128>, Vec<u64>)
        ensures prices { result.0.items ≡ self.prices }
        ensures flows { result.1.items ≡ self.flows }
    {
        (self.prices, self.flows)
    }
}
