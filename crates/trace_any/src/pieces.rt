//! The next line of a trace, or its next record.
ghost use Rattle.std.specs.Prelude.{◌≡◌, ◌≤◌, ◌<◌, None, true, length, IfOk, IfErr, IfSome, IfNone};
ghost use Rattle.std.specs.Borrow.{sem};
ghost use Rattle.std.specs.Io.BufRead.{Rests};
ghost use Rattle.std.specs.Io.KnownBytes.{IsAtEnd};
ghost use Rattle.bound_io.specs.Devices.{seen};
ghost use Rattle.bound_io.specs.Positions.{known};
ghost use Rattle.bound_io.specs.Reading.{ReadsSource};
ghost use Rattle.bound_io.specs.contracts.line_reader.LineReader.{the_row};
ghost use Rattle.trace_any.specs.NextPieces.{IsNextText, LeavesPiece, RefusesNext};

use bound_io::{LineFault, LineReader, Source};

/// How many bytes a record has.
const RECORD: usize = 24;

/// The next record, the last of which may be of fewer bytes, or the text of the next line; None at the end. It is lent
/// until the next call.
pub(crate) fn next_piece<'a, S: Source>(
    lines: &'a mut LineReader,
    records: bool,
    source: &mut S,
) -> Result<Option<&'a [u8]>, LineFault>
    requires { lines.old.fault ≡ None }
    ensures text { IfOk result (λ found. IfSome found (λ text. IfSome (known lines.old (S.left source.old)) (IsNextText records text.now))) }
    ensures end { IfOk result (λ found. IfNone found (IsAtEnd (known lines.old (S.left source.old)))) }
    ensures short { IfOk result (λ found. IfSome found (λ text. length text.now ≤ 65535)) }
    ensures record { records ≡ true → IfOk result (λ found. IfSome found (λ text. length text.now ≤ 24)) }
    ensures refused { IfErr result (RefusesNext records lines.old (seen S.left S.faults source.old source.new)) }
    ensures reads { ReadsSource LineFault.ReadFault (seen S.left S.faults source.old source.new) result }
    ensures* after { sem 𝓛 (Rests the_row lines.entry (LeavesPiece records lines.old (seen S.left S.faults source.old source.new) result)) }
{
    if !records {
        return lines.next_line(source);
    }
    let bytes = lines.next_bytes(source, RECORD)?;
    if bytes.is_empty() {
        return Ok(None);
    }
    Ok(Some(bytes))
}
