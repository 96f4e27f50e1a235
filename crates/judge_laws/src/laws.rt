//! What is proved of flags: each law is the contract of a function that does nothing.
ghost use Rattle.judge_laws.specs.Laws.{AllowedIsPossible, ClaimedIsBounded, ClaimedIsScored, PossibleIsAllowed};

/// If the flags are possible, some allowed contents hit at each flagged request.
pub fn possible_is_allowed()
    ensures { PossibleIsAllowed }
{}

/// If allowed contents hit at each flagged request, the flags are possible.
pub fn allowed_is_possible()
    ensures { AllowedIsPossible }
{}

/// If the flags are possible, some allowed contents score at least what the flags claim, in hits and in bytes.
pub fn claimed_is_scored()
    ensures { ClaimedIsScored }
{}

/// Possible flags claim no more than a valid certificate allows, if its warm-up is no longer.
pub fn claimed_is_bounded()
    ensures { ClaimedIsBounded }
{}
