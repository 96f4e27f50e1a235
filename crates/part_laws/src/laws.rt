//! What is proved of a trace that is cut into parts: each law is the contract of a function that does nothing.
ghost use Rattle.part_laws.specs.Laws.{BoundsAddUp, CutIsBounded, LowerBoundsAddUp, PartsAreAllowed, ScoresAddUp};

/// What contents score on a stretch is the sum of what they score on its two sides of a cut.
pub fn scores_add_up()
    ensures { ScoresAddUp }
{}

/// A bound of a part behind a prelude bounds that part within the whole trace.
pub fn cut_is_bounded()
    ensures { CutIsBounded }
{}

/// The bounds of all parts of a trace, each behind its prelude, sum to a bound of the whole.
pub fn bounds_add_up()
    ensures { BoundsAddUp }
{}

/// Allowed contents of two parts, one after the other, are allowed, and score the sum.
pub fn parts_are_allowed()
    ensures { PartsAreAllowed }
{}

/// What allowed contents of all parts score, each from an empty cache, allowed contents of the whole score too.
pub fn lower_bounds_add_up()
    ensures { LowerBoundsAddUp }
{}
