//! Why a certificate is not read on.

use bound_base::NumFault;

/// What is wrong with the text of a line. Its length is tested first, and then the others in this order.
#[derive(Clone, Copy, Debug, PartialEq, Eq)]
pub enum TextKind {
    /// Its words are not as many as there should be, or not parted by one space each, or one of them is none of those
    /// that can stand there.
    Shape,
    /// A word that should write a number has a byte that is no digit, or a leading 0.
    Number,
    /// A number is outside its range.
    Range,
    /// It has more than 65,535 bytes.
    TooLong,
}

impl From<NumFault> for TextKind {
    ghost use Rattle.std.specs.Prelude.{◌≡◌};
    ghost use Rattle.cert_format.specs.Kinds.{kind_of};

    ghost from_gives = { λ fault kind. kind ≡ kind_of fault };

    fn from(fault: NumFault) -> Self {
        match fault {
            NumFault::Empty | NumFault::NotDigit { .. } => TextKind::Number,
            NumFault::TooLarge => TextKind::Range,
        }
    }
}

/// Why nothing more is read. Lines count from 1.
#[derive(Clone, Copy, Debug, PartialEq, Eq)]
pub enum CertFault {
    /// The text of a line is refused.
    BadText { line: u64, kind: TextKind },
    /// The input ends before the end of this line.
    Truncated { line: u64 },
    /// Something follows the line `end`, if this line would be.
    Trailing { line: u64 },
    /// A read failed.
    ReadFault,
}
