//! Intervals between two successive requests of one object.

/// Two requests of one object with no other request of it between them. It covers the steps from `start` to
/// the one before `end`. The size is in bytes; the gain is that of the hit at `end`, in hits or bytes.
#[derive(Clone, Copy, Debug, PartialEq, Eq)]
pub struct Interval {
    pub start: u32,
    pub end: u32,
    pub size: u64,
    pub gain: u64,
}
