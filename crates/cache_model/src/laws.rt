//! What is proved of the definitions: each law is the contract of a function that does nothing.
ghost use Rattle.cache_model.specs.Laws.{ContentsWeighTheirIntervals, ExactIsLeast, FlowsAreBelowPrices};
ghost use Rattle.cache_model.specs.Laws.{IntervalsAreEligible, KeepsAreAllowed, LeastWholeIsLeastCommonMultiple};
ghost use Rattle.cache_model.specs.Laws.{LoadIsLatestSum, OneMoreRequest, OneReading};
ghost use Rattle.cache_model.specs.Laws.{RoundedIsMaximal, UnitIsOneNumber, ValidBoundsEveryPolicy};
ghost use Rattle.cache_model.specs.NoPolicyScoresMore.{NoPolicyScoresMore};

/// No contents that the rules allow score more than the bound of any prices.
pub fn no_policy_scores_more()
    ensures { NoPolicyScoresMore }
{}

/// The list of eligible intervals has all and only those, in order of start.
pub fn intervals_are_eligible()
    ensures { IntervalsAreEligible }
{}

/// Keeps whose contents fit are allowed contents.
pub fn keeps_are_allowed()
    ensures { KeepsAreAllowed }
{}

/// Flows that fit are worth no more than the bound of any prices, over any two denominators.
pub fn flows_are_below_prices()
    ensures { FlowsAreBelowPrices }
{}

/// The contents that keeps stand for hold what their intervals do.
pub fn contents_weigh_their_intervals()
    ensures { ContentsWeighTheirIntervals }
{}

/// Nothing can be added to rounded keeps.
pub fn rounded_is_maximal()
    ensures { RoundedIsMaximal }
{}

/// What one more request adds to the sums that a checker keeps.
pub fn one_more_request()
    ensures { OneMoreRequest }
{}

/// The load of a step is the sum over the latest request of each object.
pub fn load_is_latest_sum()
    ensures { LoadIsLatestSum }
{}

/// A text of a certificate can be read in one way only.
pub fn one_reading()
    ensures { OneReading }
{}

/// A valid certificate bounds every policy.
pub fn valid_bounds_every_policy()
    ensures { ValidBoundsEveryPolicy }
{}

/// A valid certificate of the form exact gives the least bound of all prices.
pub fn exact_is_least()
    ensures { ExactIsLeast }
{}

/// The unit of a list of intervals is one number.
pub fn unit_is_one_number()
    ensures { UnitIsOneNumber }
{}

/// The least denominator at which no cost is rounded is the least common multiple of the reduced weights.
pub fn least_whole_is_least_common_multiple()
    ensures { LeastWholeIsLeastCommonMultiple }
{}
