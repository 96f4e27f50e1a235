//! How long objects stay fresh.
ghost use Rattle.std.specs.Prelude.{◌≡◌};
ghost use Rattle.std.specs.Option.{is_some};
ghost use Rattle.freshness.specs.Stale.{can_end, forever, stale_after};

/// How long an object stays fresh after it was asked for, how long after it was written, and whether a request for another
/// size of its id replaces it. A time that isn't given is without end. Both are in the unit of the trace's times.
#[derive(Clone, Copy, Debug, PartialEq, Eq)]
pub struct Freshness {
    pub idle: Option<u64>,
    pub ttl: Option<u64>,
    pub replace: bool,
}

impl Freshness {
    /// Nothing expires, and nothing is replaced.
    pub const fn forever() -> Freshness
        ensures { result ≡ forever }
    {
        Freshness {
            idle: None,
            ttl: None,
            replace: false,
        }
    }

    /// After this time since it was last asked for an object is stale, whatever a cache did. It was last written at that
    /// request or before it, so that this is the lesser of the two times.
    pub fn stale_after(self) -> Option<u64>
        ensures { result ≡ stale_after self }
    {
        match (self.idle, self.ttl) {
            (Some(idle), Some(ttl)) => Some(idle.min(ttl)),
            (idle, ttl) => idle.or(ttl),
        }
    }

    /// Whether objects expire, so that the times of a trace are read.
    pub fn is_timed(self) -> bool
        ensures { result ≡ is_some (stale_after self) }
    {
        self.stale_after().is_some()
    }

    /// Whether a request can be stale.
    pub fn can_end(self) -> bool
        ensures { result ≡ can_end self }
    {
        self.is_timed() || self.replace
    }
}
