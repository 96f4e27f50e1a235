//! What a line of a trace asks for, and why it is refused.

/// Why a line of a trace is refused.
#[derive(Clone, Copy, Debug, PartialEq, Eq)]
pub enum LineKind {
    /// It has fewer words or fields than its form wants.
    TooFewWords,
    /// A word or a field is no number of its place. They count from 1.
    BadNumber { word: u8 },
    /// Its size passes 2^48 bytes.
    SizeTooLarge,
    /// Its range of bytes or of blocks is none that its form allows.
    BadRange,
    /// Its type of request is none of its form.
    BadType,
    /// It has a double quote, and quoted fields are not read.
    QuoteByte,
    /// Its text passes 65,535 bytes.
    TooLong,
    /// It is the last record of a trace of records of 24 bytes, and has this many of them, from 1 to 23.
    PartRecord { bytes: u8 },
}

/// What a line asks for.
#[derive(Clone, Copy, Debug, PartialEq, Eq)]
pub enum Span {
    /// Nothing: its size or its number of blocks is 0. A reader counts such a line as dropped.
    Nothing,
    /// One request. The size is in bytes.
    One { id: u64, size: u64 },
    /// A request for each block of a range, at least one, in ascending order; the last is at most 2^64 - 1. The
    /// size of a block is in bytes.
    Blocks { first: u64, count: u64, size: u64 },
}
