//! What is proved of curves: each law is the contract of a function that does nothing.
ghost use Rattle.curve_laws.specs.Laws.{CurveIsSteady, HitsStayBetweenLines};

/// The hits of a curve start at 0, never fall, and stay the same from as many slots as objects on.
pub fn curve_is_steady()
    ensures { CurveIsSteady }
{}

/// The numbers of slots that add hits, and their hits, tell the hits at every number of slots.
pub fn hits_stay_between_lines()
    ensures { HitsStayBetweenLines }
{}
