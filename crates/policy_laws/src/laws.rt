//! What is proved of the rules: each law is the contract of a function that does nothing.
ghost use Rattle.policy_laws.specs.Laws.{BeladyIsBest, RunsAreAllowed};

/// If all objects that fit have one size, no allowed contents scores more than the rule of Belady, 1966.
pub fn belady_is_best()
    ensures { BeladyIsBest }
{}

/// The run of each rule is allowed contents.
pub fn runs_are_allowed()
    ensures { RunsAreAllowed }
{}
