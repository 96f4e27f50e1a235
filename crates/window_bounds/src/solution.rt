//! What is found by windows.
ghost use Rattle.std.specs.Prelude.{◌≡◌};

use flow_model::Solution;
use std::marker::Model;

/// A price of each step, a flow of each arc, and which flows are the weights of their arcs.
#[derive(Debug, Drop)]
pub struct WindowSolution {
    pub(crate) solution: Solution,
    pub(crate) full: Vec<bool>,
}

impl Model for WindowSolution {
    ghost use Rattle.window_bounds.specs.Solutions.{Answer};

    ghost Value = { Answer };

    ghost view = { λ s. record { prices = s.solution.prices; flows = s.solution.flows; full = s.full.items } };
}

impl WindowSolution {
    /// The price of each step, over the denominator of the instance.
    pub fn prices(&self) -> &[u128]
        ensures { result.now ≡ self.now.prices }
    {
        self.solution.prices()
    }

    /// The flow of each arc in units, in the order of the arcs.
    pub fn flows(&self) -> &[u64]
        ensures { result.now ≡ self.now.flows }
    {
        self.solution.flows()
    }

    /// For each arc whether its flow is its weight.
    pub fn full(&self) -> &[bool]
        ensures { result.now ≡ self.now.full }
    {
        &self.full
    }

    /// The prices with the flows, and for each arc whether its flow is its weight.
    pub fn into_parts(self) -> (Solution, Vec<bool>)
        ensures prices { result.0.prices ≡ self.prices }
        ensures flows { result.0.flows ≡ self.flows }
        ensures full { result.1.items ≡ self.full }
    {
        (self.solution, self.full)
    }
}
