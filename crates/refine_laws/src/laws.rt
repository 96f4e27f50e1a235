//! What is proved of settled prices: each law is the contract of a function that does nothing.
ghost use Rattle.refine_laws.specs.Laws.{RefinedWholeIsLeast, SettledWholeIsLeast};

/// Prices that are settled for blocks of which the first has every step but the last are the least of all.
pub fn settled_whole_is_least()
    ensures { SettledWholeIsLeast }
{}

/// So a valid certificate with such prices has the least bound over its denominator.
pub fn refined_whole_is_least()
    ensures { RefinedWholeIsLeast }
{}
