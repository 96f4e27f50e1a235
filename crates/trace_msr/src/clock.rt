//! When the requests of a line were made.
ghost use Rattle.std.specs.Prelude.{◌≡◌};
ghost use Rattle.trace_msr.specs.Lines.{line_time};

use bound_base::{NumFault, read_u64};
use trace_lines::first_field;

/// The time of the line, its first field, in ticks of 100 ns as the traces are published; or why it is no number below
/// 2^64. Takes time in the length of the field.
#[inline(never)]
pub fn time(line: &[u8]) -> Result<u64, NumFault>
    ensures { result ≡ line_time line.now }
{
    let (time, _) = first_field(line);
    read_u64(time)
}
