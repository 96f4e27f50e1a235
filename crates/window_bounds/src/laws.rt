//! What is proved of windows: the law is the contract of a function that does nothing.
ghost use Rattle.window_bounds.specs.Laws.{OneWindowIsWhole};

/// A window at least as wide as the steps is the whole instance.
pub fn one_window_is_whole()
    ensures { OneWindowIsWhole }
{}
