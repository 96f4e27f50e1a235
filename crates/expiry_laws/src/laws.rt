//! What is proved of freshness: each law is the contract of a function that does nothing.
ghost use Rattle.expiry_laws.specs.Laws.{LaxerBounds, LaxerScoresMore, SeenTellsStale};

/// Whatever contents score, they score at least that if objects stay fresh longer, or are not replaced.
pub fn laxer_scores_more()
    ensures { LaxerScoresMore }
{}

/// A valid certificate bounds what contents score if objects expire sooner or are replaced.
pub fn laxer_bounds_stricter()
    ensures { LaxerBounds }
{}

/// A request is stale by what is known of those before it, as a reader keeps it, if and only if it is stale in the trace.
pub fn seen_tells_stale()
    ensures { SeenTellsStale }
{}
