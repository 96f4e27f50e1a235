//! What is proved of instances: each law is the contract of a function that does nothing.
ghost use Rattle.flow_model.specs.Laws.{EqualValues, ExactIsLeast, RoundedIsNear, SchedulesAreBelowPrices, SolutionsAreBest, WindowsAreAbove};

/// A schedule earns at most the value of any prices.
pub fn schedules_are_below_prices()
    ensures { SchedulesAreBelowPrices }
{}

/// If all units are pushed and no residual edge has a positive reduced cost, prices and flows have one value.
pub fn equal_values()
    ensures { EqualValues }
{}

/// The prices of a solution are least, and its flows earn most.
pub fn solutions_are_best()
    ensures { SolutionsAreBest }
{}

/// Over a denominator with whole costs a solution's prices are least over every denominator.
pub fn exact_is_least()
    ensures { ExactIsLeast }
{}

/// Over any denominator the bound of a solution's prices is near the value of its flows.
pub fn rounded_is_near()
    ensures { RoundedIsNear }
{}

/// The value of prices is at most what the windows' values sum to.
pub fn windows_are_above()
    ensures { WindowsAreAbove }
{}
