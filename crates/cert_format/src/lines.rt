//! Reading the lines of a certificate from a source.
ghost use Rattle.std.specs.Prelude.{◌≡◌, ◌+◌, ◌<◌, ◌≤◌, ◌^◌, length, None, Ok, Err, IfOk, MatchResult};
ghost use Rattle.bound_io.specs.Devices.{seen};
ghost use Rattle.cache_model.specs.Certificates.{IsRecordInRange};
ghost use Rattle.cert_format.specs.Grammar.{choice_line, fixed_line, has_second, number_at, number_line};
ghost use Rattle.cert_format.specs.Lines.{Reads, ReadsLine, ReadsNext, nothing_given, of_line, text_given};
ghost use Rattle.cert_format.specs.Parts.{first_record, first_warmup, warmup_fault};
ghost use Rattle.cert_format.specs.Readings.{end_fault, record_text_fault, trailing};

use crate::fault::{CertFault, TextKind};
use crate::line::{choice_after, fixed, number_after, record, warmup};
use bound_io::{LineFault, LineReader, Source, WholeLine};
use cache_model::Record;

/// The text of a whole line, which is to be this one. A certificate is too short to pass the limit of its reader.
pub fn whole_text<'a>(
    line: u64,
    given: Result<WholeLine<'a>, LineFault>,
) -> Result<&'a [u8], CertFault>
    ensures { MatchResult result (λ text. text_given line given.entry ≡ Ok text.now) (λ fault. text_given line given.entry ≡ Err fault) }
{
    match given {
        Ok(WholeLine::Whole(text)) => Ok(text),
        Ok(WholeLine::Unended(_) | WholeLine::AtEnd) => Err(CertFault::Truncated { line }),
        Err(LineFault::ReadFault) => Err(CertFault::ReadFault),
        Err(LineFault::LineTooLong { .. } | LineFault::InputTooLong) => Err(CertFault::BadText {
            line,
            kind: TextKind::TooLong,
        }),
    }
}

// Whether no line is left, if it would be this one.
fn nothing(line: u64, given: Result<WholeLine<'_>, LineFault>) -> Result<(), CertFault>
    ensures { result ≡ nothing_given line given.entry }
{
    match given {
        Ok(WholeLine::AtEnd) => Ok(()),
        Ok(WholeLine::Whole(_) | WholeLine::Unended(_)) => Err(CertFault::Trailing { line }),
        Err(LineFault::ReadFault) => Err(CertFault::ReadFault),
        Err(LineFault::LineTooLong { .. } | LineFault::InputTooLong) => {
            Err(CertFault::Trailing { line })
        }
    }
}

/// What the text of a line gives.
pub fn in_line<T>(line: u64, read: Result<T, TextKind>) -> Result<T, CertFault>
    ensures { result ≡ of_line line read }
{
    match read {
        Ok(value) => Ok(value),
        Err(kind) => Err(CertFault::BadText { line, kind }),
    }
}

/// Reads a line of fixed words.
pub fn read_fixed<S: Source>(
    lines: &mut LineReader,
    source: &mut S,
    words: &[u8],
) -> Result<(), CertFault>
    requires limit { lines.old.limit ≡ 2 ^ 36 }
    requires few { lines.old.line < 2 ^ 26 }
    requires no_fault { lines.old.fault ≡ None }
    requires short { length words.now ≤ 63 }
    ensures { ReadsLine (fixed_line words.now) (λ _. tt) lines.old lines.new (seen S.left S.faults source.old source.new) result }
{
    let line = lines.line() + 1;
    let text = whole_text(line, lines.next_whole_line(source))?;
    in_line(line, fixed(text, words))
}

/// Reads a line of a name and a number, which is from `low` to `high`.
pub fn read_number<S: Source>(
    lines: &mut LineReader,
    source: &mut S,
    name: &[u8],
    low: u128,
    high: u128,
) -> Result<u128, CertFault>
    requires limit { lines.old.limit ≡ 2 ^ 36 }
    requires few { lines.old.line < 2 ^ 26 }
    requires no_fault { lines.old.fault ≡ None }
    requires short { length name.now ≤ 20 }
    requires high { high < 2 ^ 127 }
    ensures range { IfOk result (λ n. (low ≤ n) × (n ≤ high)) }
    ensures read { ReadsLine (number_line name.now low high) (number_at 1) lines.old lines.new (seen S.left S.faults source.old source.new) result }
{
    let line = lines.line() + 1;
    let text = whole_text(line, lines.next_whole_line(source))?;
    in_line(line, number_after(text, name, low, high))
}

/// Reads a line of a name and one of two words, and says whether it has the first.
pub fn read_choice<S: Source>(
    lines: &mut LineReader,
    source: &mut S,
    name: &[u8],
    first: &[u8],
    second: &[u8],
) -> Result<bool, CertFault>
    requires limit { lines.old.limit ≡ 2 ^ 36 }
    requires few { lines.old.line < 2 ^ 26 }
    requires no_fault { lines.old.fault ≡ None }
    requires name { length name.now ≤ 23 }
    requires first { (0 < length first.now) × (length first.now ≤ 20) }
    requires second { (0 < length second.now) × (length second.now ≤ 20) }
    ensures { ReadsLine (choice_line name.now first.now second.now) (has_second first.now) lines.old lines.new (seen S.left S.faults source.old source.new) result }
{
    let line = lines.line() + 1;
    let text = whole_text(line, lines.next_whole_line(source))?;
    in_line(line, choice_after(text, name, first, second))
}

/// Reads the line where a warm-up may stand, which is 0 if the records come next.
pub(crate) fn read_warmup<S: Source>(
    lines: &mut LineReader,
    source: &mut S,
) -> Result<u128, CertFault>
    requires limit { lines.old.limit ≡ 2 ^ 36 }
    requires few { lines.old.line < 2 ^ 26 }
    requires no_fault { lines.old.fault ≡ None }
    ensures range { IfOk result (λ n. n ≤ 2 ^ 25) }
    ensures read { ReadsNext warmup_fault 1 first_warmup lines.old lines.new (seen S.left S.faults source.old source.new) result }
{
    let line = lines.line() + 1;
    let text = whole_text(line, lines.next_whole_line(source))?;
    in_line(line, warmup(text))
}

/// Reads the line of a record, after one of the price `before`.
#[inline(always)]
pub(crate) fn read_record<S: Source>(
    lines: &mut LineReader,
    source: &mut S,
    version: u8,
    before: u128,
) -> Result<Record, CertFault>
    requires limit { lines.old.limit ≡ 2 ^ 36 }
    requires few { lines.old.line < 2 ^ 26 }
    requires no_fault { lines.old.fault ≡ None }
    requires price { before ≤ 2 ^ 126 }
    ensures range { IfOk result IsRecordInRange }
    ensures read { ReadsNext (record_text_fault version before) 1 (first_record version before) lines.old lines.new (seen S.left S.faults source.old source.new) result }
{
    let line = lines.line() + 1;
    let text = whole_text(line, lines.next_whole_line(source))?;
    in_line(line, record(text, version, before))
}

/// Looks whether nothing is left.
pub(crate) fn read_nothing<S: Source>(
    lines: &mut LineReader,
    source: &mut S,
) -> Result<(), CertFault>
    requires limit { lines.old.limit ≡ 2 ^ 36 }
    requires few { lines.old.line < 2 ^ 26 }
    requires no_fault { lines.old.fault ≡ None }
    ensures { Reads (trailing (lines.old.line + 1)) 0 (λ _. tt) lines.old lines.new (seen S.left S.faults source.old source.new) result }
{
    let line = lines.line() + 1;
    nothing(line, lines.next_whole_line(source))
}

/// Reads the line after the records, and looks whether nothing follows it.
pub fn read_end<S: Source>(lines: &mut LineReader, source: &mut S) -> Result<(), CertFault>
    requires limit { lines.old.limit ≡ 2 ^ 36 }
    requires few { lines.old.line + 1 < 2 ^ 26 }
    requires no_fault { lines.old.fault ≡ None }
    ensures { Reads (end_fault (lines.old.line + 1)) 1 (λ _. tt) lines.old lines.new (seen S.left S.faults source.old source.new) result }
{
    read_fixed(lines, source, b"end")?;
    read_nothing(lines, source)
}
