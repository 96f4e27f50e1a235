//! What is proved of the ends of intervals: each law is the contract of a function that does nothing.
ghost use Rattle.interval_ends.specs.Laws.{NextEndsAlone, SumsByEnds};

/// A sum over the eligible intervals is one over the requests where they end.
pub fn sums_by_ends()
    ensures { SumsByEnds }
{}

/// Where an interval ends whose object fits, at a request that counts, it is eligible and no other ends there.
pub fn next_ends_alone()
    ensures { NextEndsAlone }
{}
