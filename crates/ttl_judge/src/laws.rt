//! What is proved of flags of objects that expire a time after they were written: each law is the contract of a function that
//! does nothing.
ghost use Rattle.ttl_judge.specs.Laws.{ClaimedIsBoundedWithTtl, ClaimedIsScoredWithTtl, FreshIsPossible, PossibleIsFresh};

/// If the flags are possible with a time to live, some allowed contents have each flagged object, and no older than that.
pub fn possible_is_fresh()
    ensures { PossibleIsFresh }
{}

/// And if allowed contents have each flagged object, and no older than that, the flags are possible with it.
pub fn fresh_is_possible()
    ensures { FreshIsPossible }
{}

/// So some allowed contents score at least what possible flags claim, in hits and in bytes.
pub fn claimed_is_scored_with_ttl()
    ensures { ClaimedIsScoredWithTtl }
{}

/// And what they claim is no more than the bound of any prices with the time to live.
pub fn claimed_is_bounded_with_ttl()
    ensures { ClaimedIsBoundedWithTtl }
{}
