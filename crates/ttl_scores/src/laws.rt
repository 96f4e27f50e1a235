//! What a long time to live changes: each law is the contract of a function that does nothing.
ghost use Rattle.ttl_scores.specs.Laws.{LongTtlsLoseNoHit, LongTtlsWriteNoMore};

/// With a time to live that no clock passes, contents score what they do without one.
pub fn long_ttls_lose_no_hit()
    ensures { LongTtlsLoseNoHit }
{}

/// With a time to live that no clock passes, contents write what they do without one.
pub fn long_ttls_write_no_more()
    ensures { LongTtlsWriteNoMore }
{}
