//! What is proved of the curve: the law is the contract of a function that does nothing.
ghost use Rattle.stack_curve.specs.Laws.{CurveIsOfLru};

/// If all requests are for one size, LRU's hits at every capacity are those of the curve, at as many slots as objects
/// fit.
pub fn curve_is_of_lru()
    ensures { CurveIsOfLru }
{}
