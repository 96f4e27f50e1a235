//! The solver of an instance.
ghost use Rattle.std.specs.Prelude.{◌≡◌, IfOk};
ghost use Rattle.flow_model.specs.Instances.{IsSolution};

use crate::blocks::first_prices;
use crate::priced::solve_from;
use bound_base::NoMemory;
use flow_model::{Instance, Solution};
use std::alloc::Global;
use std::marker::Model;

/// A solver of one instance. All work is done when it is made, and it holds the solution.
#[derive(Drop)]
pub struct Solver<'a> {
    instance: &'a Instance,
    solution: Solution,
}

impl<'a> Model for Solver<'a> {
    ghost use Rattle.flow_model.specs.Instances.{Instance as Chain, IsSolution};

    ghost Value = { Chain };

    ghost view = { λ s. s.instance.now };

    ghost invariant = { λ s. IsSolution s.instance.now s.solution.prices s.solution.flows };
}

impl<'a> Solver<'a> {
    /// A solver of the instance. It takes all memory that is needed, and opens steps until all fit, from first prices that
    /// are near those of a solution: so it takes the time of the solver, and only what the open steps need. That is 41 bytes
    /// for each step, 40 for each arc, 16 for each edge with room, of which an arc has one or two, and 132 for each open step.
    pub fn new(alloc: Global, instance: &'a Instance) -> Result<Solver<'a>, NoMemory>
        ensures { IfOk result (λ solver. solver ≡ instance.now) }
    {
        let prices = first_prices(alloc, instance)?;
        let solution = solve_from(alloc, instance, prices)?;
        Ok(Solver { instance, solution })
    }

    /// Gives prices and flows of one value. It takes no memory.
    pub fn solve(self) -> Solution
        ensures { IsSolution self.entry result.prices result.flows }
    {
        let Solver { solution, .. } = self;
        solution
    }
}
