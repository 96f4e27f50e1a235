//! Why a word of the command line is refused.

/// Why a word of the command line is refused.
#[derive(Clone, Copy, Debug, PartialEq, Eq)]
pub enum WordKind {
    /// No word stands where one is needed.
    Missing,
    /// The word is not one that may stand there.
    Unknown,
    /// The operand stood before.
    Twice,
    /// The value is not one that may stand there.
    BadValue,
}
