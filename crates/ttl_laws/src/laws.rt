//! What is proved of objects that expire a time after they were written: each law is the contract of a function that
//! does nothing.
ghost use Rattle.ttl_laws.specs.Laws.{BoundsRiseWithTtl, IdleAddsNothing, IdleBoundsTtl, IdleCertificatesBoundTtl};
ghost use Rattle.ttl_laws.specs.Laws.{LongerScoresMore, NoPolicyScoresMoreWithTtl, TtlBoundsNoWorse};

/// No allowed contents score more with a time to live than the bound of any prices with it.
pub fn no_policy_scores_more_with_ttl()
    ensures { NoPolicyScoresMoreWithTtl }
{}

/// What is stale by an idle time of at least the time to live is no fresh hit anyway: its marks change no score with it.
pub fn idle_adds_nothing()
    ensures { IdleAddsNothing }
{}

/// No contents score more with a time to live than with an idle time of at least that.
pub fn idle_bounds_ttl()
    ensures { IdleBoundsTtl }
{}

/// A valid certificate of an idle time bounds what contents score with a time to live of at most that.
pub fn idle_certificates_bound_ttl()
    ensures { IdleCertificatesBoundTtl }
{}

/// At the same prices the bound with a time to live is at most the bound without one.
pub fn ttl_bounds_no_worse()
    ensures { TtlBoundsNoWorse }
{}

/// At the same prices the bound with a longer time to live is no less: so it bounds each shorter one.
pub fn bounds_rise_with_ttl()
    ensures { BoundsRiseWithTtl }
{}

/// Without a warm-up allowed contents score no less with a longer time to live.
pub fn longer_scores_more()
    ensures { LongerScoresMore }
{}
