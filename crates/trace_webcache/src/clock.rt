//! When the request of a line was made.
ghost use Rattle.std.specs.Prelude.{◌≡◌};
ghost use Rattle.trace_webcache.specs.Lines.{line_time};

use crate::number::first_number;
use bound_base::NumFault;

/// The time of the line, its first word, in whatever unit the trace has; or why it is no number below 2^64. Takes time in
/// the length of the word.
#[inline(never)]
pub fn time(line: &[u8]) -> Result<u64, NumFault>
    ensures { result ≡ line_time line.now }
{
    match first_number(line) {
        Some((time, _)) => time,
        None => Err(NumFault::Empty),
    }
}
