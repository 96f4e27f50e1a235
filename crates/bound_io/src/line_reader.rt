//! A reader of lines.
ghost use Rattle.std.specs.Prelude.{◌≡◌, ◌+◌, ◌≤◌, ◌<◌, ◌^◌, [], length, take, IfOk, IfErr, IfSome, IfNone};
ghost use Rattle.std.specs.Io.KnownBytes.{IsAtEnd, Keeps};
ghost use Rattle.bound_io.specs.Devices.{IsUntouched, seen};
ghost use Rattle.bound_io.specs.Lines.{HasExtent, text_len};
ghost use Rattle.bound_io.specs.Reading.{ReadsSource};

use crate::buffer::Buffer;
use crate::device::{Failed, Source};
use bound_base::NoMemory;
use std::alloc::Global;
use std::marker::Model;

/// Why no line is given.
#[derive(Clone, Copy, Debug, PartialEq, Eq)]
pub enum LineFault {
    /// A read failed.
    ReadFault,
    /// The text of this line has more than 65,535 bytes. Lines count from 1.
    LineTooLong { line: u64 },
    /// The bytes through this line, its LF counted, pass the reader's limit, and its text is not too long.
    InputTooLong,
}

/// A line, and whether it ends in LF.
#[derive(Clone, Copy, Debug, PartialEq, Eq)]
pub enum WholeLine<'a> {
    /// The text of a line that ends in LF, without it.
    Whole(&'a [u8]),
    /// The text of a last line without LF, of one byte at least.
    Unended(&'a [u8]),
    /// No line is left.
    AtEnd,
}

/// The most bytes that the text of a line may have.
const MOST_TEXT: usize = 65535;

// The first line: how many bytes its text has, and how many with its LF.
#[derive(Clone, Copy)]
struct Extent {
    text: usize,
    line: usize,
}

/// Gives the lines of a source one by one, from a buffer of 65,536 bytes.
///
/// A line ends at LF, which its text lacks; a CR before the LF stays in the text. The last line may lack its LF.
///
/// It doesn't keep the source: each reading call is given it. Over one source the lines are those of all its bytes,
/// in whatever pieces it gives them. A reader that has answered a fault answers the same from then on, and reads
/// nothing more.
#[derive(Drop)]
pub struct LineReader {
    buffer: Buffer,
    limit: u64,
    consumed: u64,
    line: u64,
    fault: Option<LineFault>,
}

impl Model for LineReader {
    ghost use Rattle.std.specs.Prelude.{◌≤◌, ◌^◌, length};
    ghost use Rattle.bound_io.specs.Positions.{Position};

    ghost Value = { Position };

    ghost view = { λ r. record { limit = r.limit; consumed = r.consumed; line = r.line; held = r.buffer; fault = r.fault } };

    ghost invariant = { λ r. (r.limit ≤ 2 ^ 44) × (r.consumed ≤ r.limit) × (r.line ≤ r.consumed) × (length r.buffer ≤ 65536) };
}

impl LineReader {
    ghost use Rattle.bound_io.specs.contracts.line_reader.LineReader.{the_row};
    ghost use Rattle.std.specs.Io.BufRead.{Rests};
    ghost use Rattle.std.specs.Borrow.{sem};
    ghost use Rattle.bound_io.specs.Positions.{AnswersAgain, Fits, FitsPiece, IsFirstText, IsLine};
    ghost use Rattle.bound_io.specs.Positions.{LeavesBytes, LeavesLine, RefusesLine, RefusesPiece};
    ghost use Rattle.bound_io.specs.Positions.{Stops, given, given_by, known, with_held};

    /// A reader of lines of at most `limit` bytes in all, which takes its buffer here.
    pub fn new(alloc: Global, limit: u64) -> Result<Self, NoMemory>
        requires { limit ≤ 2 ^ 44 }
        ensures { IfOk result (λ reader. reader ≡ record { limit = limit; consumed = 0; line = 0; held = []; fault = None }) }
    {
        Ok(LineReader {
            buffer: Buffer::new(alloc)?,
            limit,
            consumed: 0,
            line: 0,
            fault: None,
        })
    }

    /// How many bytes were taken from the source.
    pub fn taken(&self) -> u64
        ensures taken { result ≡ self.now.consumed + length self.now.held }
        ensures ahead { result ≤ self.now.consumed + 65536 }
    {
        self.consumed + self.buffer.len() as u64
    }

    /// How many bytes the lines given have, with their LFs.
    pub fn consumed(&self) -> u64
        ensures { result ≡ self.now.consumed }
    {
        self.consumed
    }

    /// How many lines were given.
    pub fn line(&self) -> u64
        ensures { result ≡ self.now.line }
    {
        self.line
    }

    // The extent of the first line, once the line stands in the buffer, or why none is given.
    fn look<S: Source>(&mut self, source: &mut S) -> Result<Extent, LineFault>
        ensures extent { IfOk result (λ e. IfSome (known self.old (S.left source.old)) (HasExtent e.text e.line)) }
        ensures within { IfOk result (λ e. Fits self.old self.new.held e.text e.line) }
        ensures refused { IfErr result (RefusesLine self.old (seen S.left S.faults source.old source.new)) }
        ensures still { self.new ≡ with_held self.old self.new.held }
        ensures room { length self.new.held ≤ 65536 }
        ensures kept { Keeps (known self.old (S.left source.old)) (known self.new (S.left source.new)) }
        ensures reads { ReadsSource LineFault.ReadFault (seen S.left S.faults source.old source.new) result }
        ensures untouched { text_len self.old.held < length self.old.held → IsUntouched (seen S.left S.faults source.old source.new) }
    {
        let Ok(text) = self.buffer.find_text(source) else {
            return Err(LineFault::ReadFault);
        };
        if text > MOST_TEXT {
            return Err(LineFault::LineTooLong {
                line: self.line + 1,
            });
        }
        let line = self.buffer.len().min(text + 1);
        if line as u64 > self.limit - self.consumed {
            return Err(LineFault::InputTooLong);
        }
        Ok(Extent { text, line })
    }

    // The extent of the first line, or the fault that ended the reading, which is kept.
    #[inline(always)]
    fn find_line<S: Source>(&mut self, source: &mut S) -> Result<Extent, LineFault>
        ensures extent { IfOk result (λ e. IfSome (known self.old (S.left source.old)) (HasExtent e.text e.line)) }
        ensures within { IfOk result (λ e. Fits self.old self.new.held e.text e.line) }
        ensures still { IfOk result (λ e. (self.new ≡ with_held self.old self.new.held) × (self.old.fault ≡ None)) }
        ensures refused { self.old.fault ≡ None → IfErr result (RefusesLine self.old (seen S.left S.faults source.old source.new)) }
        ensures stops { IfErr result (Stops self.old self.new (known self.old (S.left source.old)) (known self.new (S.left source.new))) }
        ensures again { AnswersAgain self.old.fault result (seen S.left S.faults source.old source.new) }
        ensures room { length self.new.held ≤ 65536 }
        ensures kept { Keeps (known self.old (S.left source.old)) (known self.new (S.left source.new)) }
        ensures reads { ReadsSource LineFault.ReadFault (seen S.left S.faults source.old source.new) result }
        ensures untouched { text_len self.old.held < length self.old.held → IsUntouched (seen S.left S.faults source.old source.new) }
    {
        if let Some(fault) = self.fault {
            return Err(fault);
        }
        let found = self.look(source);
        if let Err(fault) = found {
            self.fault = Some(fault);
        }
        found
    }

    /// The next line, which says whether it ends in LF. The text is lent until the next call.
    #[inline(always)]
    pub fn next_whole_line<S: Source>(&mut self, source: &mut S) -> Result<WholeLine<'_>, LineFault>
        ensures line { IfOk result (λ line. IfSome (known self.old (S.left source.old)) (IsLine line)) }
        ensures short { IfOk result (λ line. IfSome (given line) (λ text. length text ≤ 65535)) }
        ensures refused { self.old.fault ≡ None → IfErr result (RefusesLine self.old (seen S.left S.faults source.old source.new)) }
        ensures again { AnswersAgain self.old.fault result (seen S.left S.faults source.old source.new) }
        ensures reads { ReadsSource LineFault.ReadFault (seen S.left S.faults source.old source.new) result }
        ensures untouched { text_len self.old.held < length self.old.held → IsUntouched (seen S.left S.faults source.old source.new) }
        ensures* after { sem 𝓛 (Rests the_row self.entry (LeavesLine self.old (seen S.left S.faults source.old source.new) (given_by result))) }
    {
        let extent = self.find_line(source)?;
        if extent.line == 0 {
            return Ok(WholeLine::AtEnd);
        }
        self.consumed += extent.line as u64;
        self.line += 1;
        let text = self.buffer.give(extent.text, extent.line);
        if extent.text < extent.line {
            Ok(WholeLine::Whole(text))
        } else {
            Ok(WholeLine::Unended(text))
        }
    }

    /// The text of the next line, or None at the end. The text is lent until the next call.
    #[inline(always)]
    pub fn next_line<S: Source>(&mut self, source: &mut S) -> Result<Option<&[u8]>, LineFault>
        ensures text { IfOk result (λ found. IfSome found (λ text. IfSome (known self.old (S.left source.old)) (IsFirstText text.now))) }
        ensures end { IfOk result (λ found. IfNone found (IsAtEnd (known self.old (S.left source.old)))) }
        ensures short { IfOk result (λ found. IfSome found (λ text. length text.now ≤ 65535)) }
        ensures refused { self.old.fault ≡ None → IfErr result (RefusesLine self.old (seen S.left S.faults source.old source.new)) }
        ensures again { AnswersAgain self.old.fault result (seen S.left S.faults source.old source.new) }
        ensures reads { ReadsSource LineFault.ReadFault (seen S.left S.faults source.old source.new) result }
        ensures untouched { text_len self.old.held < length self.old.held → IsUntouched (seen S.left S.faults source.old source.new) }
        ensures* after { sem 𝓛 (Rests the_row self.entry (LeavesLine self.old (seen S.left S.faults source.old source.new) result)) }
    {
        match self.next_whole_line(source)? {
            WholeLine::Whole(text) | WholeLine::Unended(text) => Ok(Some(text)),
            WholeLine::AtEnd => Ok(None),
        }
    }

    // How many bytes the next piece, of `count` at most, has once they stand in the buffer, or why none is given.
    fn look_for<S: Source>(&mut self, source: &mut S, count: usize) -> Result<usize, LineFault>
        requires { count ≤ 65536 }
        ensures size { IfOk result (λ n. IfSome (known self.old (S.left source.old)) (λ bytes. n ≡ length (take count bytes))) }
        ensures within { IfOk result (λ n. FitsPiece self.old self.new.held count n) }
        ensures refused { IfErr result (RefusesPiece count self.old (seen S.left S.faults source.old source.new)) }
        ensures still { self.new ≡ with_held self.old self.new.held }
        ensures room { length self.new.held ≤ 65536 }
        ensures kept { Keeps (known self.old (S.left source.old)) (known self.new (S.left source.new)) }
        ensures reads { ReadsSource LineFault.ReadFault (seen S.left S.faults source.old source.new) result }
        ensures untouched { count ≤ length self.old.held → IsUntouched (seen S.left S.faults source.old source.new) }
    {
        let held = self.buffer.hold(source, count);
        held.or(Err(LineFault::ReadFault))?;
        let size = self.buffer.len().min(count);
        if size as u64 > self.limit - self.consumed {
            return Err(LineFault::InputTooLong);
        }
        Ok(size)
    }

    // The size of the next piece, or the fault that ended the reading, which is kept.
    fn find_piece<S: Source>(&mut self, source: &mut S, count: usize) -> Result<usize, LineFault>
        requires { count ≤ 65536 }
        ensures size { IfOk result (λ n. IfSome (known self.old (S.left source.old)) (λ bytes. n ≡ length (take count bytes))) }
        ensures within { IfOk result (λ n. FitsPiece self.old self.new.held count n) }
        ensures still { IfOk result (λ n. (self.new ≡ with_held self.old self.new.held) × (self.old.fault ≡ None)) }
        ensures refused { self.old.fault ≡ None → IfErr result (RefusesPiece count self.old (seen S.left S.faults source.old source.new)) }
        ensures stops { IfErr result (Stops self.old self.new (known self.old (S.left source.old)) (known self.new (S.left source.new))) }
        ensures again { AnswersAgain self.old.fault result (seen S.left S.faults source.old source.new) }
        ensures room { length self.new.held ≤ 65536 }
        ensures kept { Keeps (known self.old (S.left source.old)) (known self.new (S.left source.new)) }
        ensures reads { ReadsSource LineFault.ReadFault (seen S.left S.faults source.old source.new) result }
        ensures untouched { count ≤ length self.old.held → IsUntouched (seen S.left S.faults source.old source.new) }
    {
        if let Some(fault) = self.fault {
            return Err(fault);
        }
        let found = self.look_for(source, count);
        if let Err(reason) = found {
            self.fault = Some(reason);
        }
        found
    }

    /// The next `count` bytes, or fewer if the input ends before. They count as one line, even if none of them is an
    /// LF or many are; none at the end of the input count as no line. The bytes are lent until the next call.
    pub fn next_bytes<S: Source>(
        &mut self,
        source: &mut S,
        count: usize,
    ) -> Result<&[u8], LineFault>
        requires some { 1 ≤ count }
        requires room { count ≤ 65536 }
        ensures bytes { IfOk result (λ piece. IfSome (known self.old (S.left source.old)) (λ bytes. piece.now ≡ take count bytes)) }
        ensures most { IfOk result (λ piece. length piece.now ≤ count) }
        ensures refused { self.old.fault ≡ None → IfErr result (RefusesPiece count self.old (seen S.left S.faults source.old source.new)) }
        ensures again { AnswersAgain self.old.fault result (seen S.left S.faults source.old source.new) }
        ensures reads { ReadsSource LineFault.ReadFault (seen S.left S.faults source.old source.new) result }
        ensures untouched { count ≤ length self.old.held → IsUntouched (seen S.left S.faults source.old source.new) }
        ensures* after { sem 𝓛 (Rests the_row self.entry (LeavesBytes count self.old (seen S.left S.faults source.old source.new) result)) }
    {
        let size = self.find_piece(source, count)?;
        if size == 0 {
            return Ok(&[]);
        }
        self.consumed += size as u64;
        self.line += 1;
        Ok(self.buffer.give(size, size))
    }
}
