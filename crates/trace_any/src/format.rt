//! The forms of a trace, and how much of one is read.
ghost use Rattle.std.specs.Prelude.{◌≡◌};
ghost use Rattle.trace_any.specs.Loads.{pass_limits};
ghost use Rattle.trace_any.specs.Readings.{full_limits, has_marks, has_records, is_marked, lasting};

use freshness::Freshness;

/// How the lines or the records of a trace say what is asked for.
#[derive(Clone, Copy, Debug, PartialEq, Eq)]
pub enum Layout {
    /// A line is a time, an id, a size in bytes, and any further words.
    Webcache,
    /// A line as of `Webcache` whose fourth word is its mark: `r` if its request counts, and `w` if it only fills the cache.
    MarkedWebcache,
    /// A line is a first block, how many blocks, and any further words. A block has 512 bytes.
    Arc,
    /// A line is of fields with commas between them: a timestamp, a host, a disk, a type, an offset and a size in
    /// bytes, and any further fields. Each block of this many bytes, from 1 to 2^48, that it touches is a request.
    Msr { block: u64 },
    /// Lines as of `Msr`, of which those that write only fill the cache.
    MsrReads { block: u64 },
    /// A record is of 24 bytes, packed and little endian: a time of 4, an id of 8, a size in bytes of 4, and the time of
    /// the next access, of 8. There are no lines.
    Oracle,
}

impl Layout {
    /// Whether a line says if its requests only fill the cache.
    pub fn has_marks(self) -> bool
        ensures { result ≡ has_marks self }
    {
        matches!(self, Layout::MarkedWebcache | Layout::MsrReads { .. })
    }
}

/// The form of a trace: its layout, and how long its objects stay fresh. A request that is stale only fills the cache,
/// whatever its own mark is.
#[derive(Clone, Copy, Debug, PartialEq, Eq)]
pub struct Format {
    pub layout: Layout,
    pub fresh: Freshness,
}

impl Format {
    /// The form of this layout whose objects stay fresh forever.
    pub const fn lasting(layout: Layout) -> Format
        ensures { result ≡ lasting layout }
    {
        Format {
            layout,
            fresh: Freshness::forever(),
        }
    }

    /// Whether the form is one of records of 24 bytes, and not of lines.
    pub(crate) fn has_records(self) -> bool
        ensures { result ≡ has_records self }
    {
        matches!(self.layout, Layout::Oracle)
    }

    /// Whether some requests may only fill the cache: a line of the form says if its own do, or a request can be stale.
    pub fn is_marked(self) -> bool
        ensures { result ≡ is_marked self }
    {
        self.layout.has_marks() || self.fresh.can_end()
    }
}

/// The most requests and the most bytes that a trace may have.
#[derive(Clone, Copy, Debug, PartialEq, Eq)]
pub struct Limits {
    pub requests: u32,
    pub bytes: u64,
}

impl Limits {
    /// The limits of a trace in memory: 2^25 requests and 2^36 bytes.
    pub fn full() -> Limits
        ensures { result ≡ full_limits }
    {
        Limits {
            requests: 1 << 25,
            bytes: 1 << 36,
        }
    }

    /// The limits of a trace that is read in one pass: 2^32 - 1 requests and 2^44 bytes.
    pub fn of_one_pass() -> Limits
        ensures { result ≡ pass_limits }
    {
        Limits {
            requests: u32::MAX,
            bytes: 1 << 44,
        }
    }
}
