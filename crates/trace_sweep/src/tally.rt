//! Requests that are counted as they pass.
ghost use Rattle.std.specs.Prelude.{◌≡◌, ◌+◌, ◌<◌, ◌^◌, nat_le, not, ◌&&◌};
ghost use Rattle.trace_sweep.specs.Counts.{more};

/// How many of the requests so far count by their own marks from the warm-up on, and how many are stale.
#[derive(Clone, Copy, Debug)]
pub(crate) struct Tally {
    pub(crate) counted: u32,
    pub(crate) stale: u32,
}

/// Whether a request with this number counts by its own mark from the warm-up on.
pub(crate) fn is_counted(warmup: u32, number: u32, fills: bool) -> bool
    ensures { result ≡ (nat_le warmup number && not fills) }
{
    number >= warmup && !fills
}

// One more, if it is so.
fn more(count: u32, so: bool) -> u32
    requires { count + 1 < 2 ^ 32 }
    ensures { result ≡ more count so }
{
    count + u32::from(so)
}

impl Tally {
    /// Of no request.
    pub(crate) const NONE: Tally = Tally {
        counted: 0,
        stale: 0,
    };

    /// One request more.
    pub(crate) fn with(self, counts: bool, stale: bool) -> Tally
        requires counted { self.counted + 1 < 2 ^ 32 }
        requires stale { self.stale + 1 < 2 ^ 32 }
        ensures { result ≡ record { counted = more self.counted counts; stale = more self.stale stale } }
    {
        Tally {
            counted: more(self.counted, counts),
            stale: more(self.stale, stale),
        }
    }
}
