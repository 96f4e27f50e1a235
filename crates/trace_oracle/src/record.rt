//! What a record asks for.
ghost use Rattle.std.specs.Prelude.{◌≡◌};
ghost use Rattle.trace_lines.specs.Lines.{IsSpan};
ghost use Rattle.trace_oracle.specs.Records.{record_span, record_time};

use trace_lines::Span;

/// What the record asks for. It is packed and little endian, as libCacheSim writes it: a `u32` of the time, a `u64` of
/// the id, a `u32` of the size in bytes and an `i64` of the next access. Neither time is looked at, and no record is
/// refused.
pub fn parse(bytes: &[u8; 24]) -> Span
    ensures span { result ≡ record_span bytes.now }
    ensures range { IsSpan result }
{
    let id = u64::from_le_bytes([
        bytes[4], bytes[5], bytes[6], bytes[7], bytes[8], bytes[9], bytes[10], bytes[11],
    ]);
    let size = u32::from_le_bytes([bytes[12], bytes[13], bytes[14], bytes[15]]);
    if size == 0 {
        Span::Nothing
    } else {
        Span::One {
            id,
            size: u64::from(size),
        }
    }
}

/// The time of the record, in whatever unit the trace has.
pub fn time(bytes: &[u8; 24]) -> u64
    ensures { result ≡ record_time bytes.now }
{
    u64::from(u32::from_le_bytes([bytes[0], bytes[1], bytes[2], bytes[3]]))
}
