//! Prices of steps and flows of intervals, as lists or in few numbers.
ghost use Rattle.std.specs.Prelude.{◌≡◌, ◌<◌, length, replicate, slice_index, slice_index_or};
ghost use Rattle.constant_price.specs.Constants.{constant_prices};

use flow_model::Solution;
use std::marker::Model;

// How they are stored.
#[derive(Drop)]
enum Storage {
    // A price of each step and a flow of each interval.
    Each(Solution),
    // One price on each step but the last, 0 there, and no flow.
    OnePrice {
        price: u128,
        steps: u32,
        intervals: u32,
    },
}

/// A price of each step and a flow of each interval. One price and no flow take no memory.
#[derive(Drop)]
pub(crate) struct PricesAndFlows {
    storage: Storage,
}

impl Model for PricesAndFlows {
    ghost use Rattle.flow_model.specs.Solutions.{Answer};
    ghost use Rattle.bound_run.specs.Prices.{stored};

    ghost Value = { Answer };

    ghost view = { λ p. stored p.storage };
}

impl PricesAndFlows {
    /// Those of a solution.
    pub(crate) fn of_solution(solution: Solution) -> Self
        ensures { result ≡ solution }
    {
        PricesAndFlows {
            storage: Storage::Each(solution),
        }
    }

    /// One price on each step but the last, 0 there, and no flow in any interval.
    pub(crate) fn one_price(price: u128, steps: u32, intervals: u32) -> Self
        ensures { result ≡ record { prices = constant_prices price steps; flows = replicate intervals 0 } }
    {
        PricesAndFlows {
            storage: Storage::OnePrice {
                price,
                steps,
                intervals,
            },
        }
    }

    /// The price of a step.
    pub(crate) fn price_at(&self, step: u32) -> u128
        requires { step < length self.now.prices }
        ensures { result ≡ slice_index_or self.now.prices step 0 }
    {
        match &self.storage {
            Storage::Each(solution) => solution.prices()[step as usize],
            Storage::OnePrice { price, steps, .. } if step < *steps - 1 => *price,
            Storage::OnePrice { .. } => 0,
        }
    }

    /// The flow of the interval of a number.
    pub(crate) fn flow_of(&self, interval: u32) -> u64
        requires { interval < length self.now.flows }
        ensures { result ≡ slice_index self.now.flows interval }
    {
        match &self.storage {
            Storage::Each(solution) => solution.flows()[interval as usize],
            Storage::OnePrice { .. } => 0,
        }
    }
}
