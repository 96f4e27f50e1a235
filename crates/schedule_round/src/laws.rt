//! What is proved of rounding: each law is the contract of a function that does nothing.
ghost use Rattle.schedule_round.specs.Laws.{EqualSizesAreWhole, EqualSizesMeetTheBound, FullFlagsFit};

/// Of a fractional schedule the intervals with full flows fit together, and so can be flagged.
pub fn full_flags_fit()
    ensures { FullFlagsFit }
{}

/// If all intervals have one size, no cost is rounded.
pub fn equal_sizes_are_whole()
    ensures { EqualSizesAreWhole }
{}

/// If all eligible intervals have one size and flows are worth the bound of prices, rounding gives a best schedule.
pub fn equal_sizes_meet_the_bound()
    ensures { EqualSizesMeetTheBound }
{}
