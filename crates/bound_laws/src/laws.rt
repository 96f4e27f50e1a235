//! What is proved of bounds: each law is the contract of a function that does nothing.
ghost use Rattle.bound_laws.specs.Laws.{FetchesAreBounded, GreatestScoreExists, GreatestScoreIsWithin};
ghost use Rattle.bound_laws.specs.Laws.{SmallerCapacitiesAreBounded, ValidBoundsFetches, ValidBoundsSmallerCapacities};

/// The bound of any prices, less what they ask for the units that are gone, bounds every smaller capacity.
pub fn smaller_capacities_are_bounded()
    ensures { SmallerCapacitiesAreBounded }
{}

/// A valid certificate bounds every policy at every smaller capacity.
pub fn valid_bounds_smaller_capacities()
    ensures { ValidBoundsSmallerCapacities }
{}

/// Whatever a cache fetches and when, it fetches what is asked for but for what allowed contents can hit.
pub fn fetches_are_bounded()
    ensures { FetchesAreBounded }
{}

/// A valid certificate bounds the fetches of all contents that fit its capacity.
pub fn valid_bounds_fetches()
    ensures { ValidBoundsFetches }
{}

/// Every trace has a greatest score, whatever the terms: some allowed contents have it, and none score more.
pub fn greatest_score_exists()
    ensures { GreatestScoreExists }
{}

/// The greatest score is within the two bounds of every valid certificate.
pub fn greatest_score_is_within()
    ensures { GreatestScoreIsWithin }
{}
