//! A printed report can be read in one way only: each law is the contract of a function that does nothing.
ghost use Rattle.report_laws.specs.Laws.{BoundsHaveOneReading, DemosHaveOneReading, RefinementsHaveOneReading, SweepsHaveOneReading, VerdictsHaveOneReading};

/// Two reports of bounds with one text print the same.
pub fn bounds_have_one_reading()
    ensures { BoundsHaveOneReading }
{}

/// Two checks with one text print the same.
pub fn verdicts_have_one_reading()
    ensures { VerdictsHaveOneReading }
{}

/// Two refinements with one text print the same bound that was read, and the same check.
pub fn refinements_have_one_reading()
    ensures { RefinementsHaveOneReading }
{}

/// Two demos with one text were asked the same, and have the same bounds, and the same hits of each policy with their bytes.
pub fn demos_have_one_reading()
    ensures { DemosHaveOneReading }
{}

/// Two sweeps with one text print the same counts and the same delay, and the same bounds and policies at each capacity.
pub fn sweeps_have_one_reading()
    ensures { SweepsHaveOneReading }
{}
