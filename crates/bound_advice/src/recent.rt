//! The last bytes that were read from a source.
ghost use Rattle.std.specs.Prelude.{◌≡◌, ◌+◌, ◌-◌, ◌≤◌, ◌++◌, [], drop, find, length, vec_capacity, vec_len, if◌then◌else◌, true, IfOk};
ghost use Rattle.std.specs.Option.{option_copied};
ghost use Rattle.bound_advice.specs.Lines.{KeepsLast, has_no_time, is_no_line, is_no_line_in, is_refused, whole_lines};

use bound_base::NoMemory;
use std::alloc::Global;
use trace_any::{Format, Layout};
use trace_lines::{is_blank, trim_cr};

// How many bytes are kept at least, if there were as many: a line and a buffer of a reader of lines.
const KEPT: usize = 131_072;

// How many there is room for.
const ROOM: usize = 393_216;

// The bytes of a block, by which no line is refused.
const BLOCK: u64 = 4096;

/// The last bytes of a source, and whether these are all.
#[derive(Drop)]
pub(crate) struct Recent {
    bytes: Vec<u8>,
    are_all: bool,
    ghost has_room: { 393216 ≤ vec_capacity bytes },
}

// Whether a text is no line of a layout of lines.
fn is_no_line_in(layout: Layout, text: &[u8]) -> bool
    ensures { result ≡ is_no_line_in layout text.now }
{
    match layout {
        Layout::Webcache => trace_webcache::parse(text).is_err(),
        Layout::MarkedWebcache => trace_webcache::parse_marked(text).is_err(),
        Layout::Arc => trace_arc::parse(text).is_err(),
        Layout::Msr { .. } | Layout::MsrReads { .. } => trace_msr::parse(text, BLOCK).is_err(),
        Layout::Oracle => false,
    }
}

// Whether the time of a line is no number.
fn has_no_time(layout: Layout, text: &[u8]) -> bool
    ensures { result ≡ has_no_time layout text.now }
{
    match layout {
        Layout::Webcache | Layout::MarkedWebcache => trace_webcache::time(text).is_err(),
        Layout::Msr { .. } | Layout::MsrReads { .. } => trace_msr::time(text).is_err(),
        Layout::Arc | Layout::Oracle => false,
    }
}

// Whether a text is no line of a form of lines.
fn is_no_line(format: Option<Format>, text: &[u8]) -> bool
    ensures { result ≡ is_no_line format text.now }
{
    let Some(format) = format else {
        return false;
    };
    is_no_line_in(format.layout, text)
        || format.fresh.is_timed() && has_no_time(format.layout, text)
}

// Whether a form refuses a line.
fn is_refused(format: Option<Format>, line: &[u8]) -> bool
    ensures { result ≡ is_refused format line.now }
{
    let text = trim_cr(line);
    !is_blank(text) && is_no_line(format, text)
}

// Forgets so many bytes, which are at least as many as those behind them. These are moved to the front by one copy.
fn forget_first(bytes: &mut Vec<u8>, count: usize)
    requires within { count ≤ vec_len bytes.old }
    requires half { vec_len bytes.old ≤ count + count }
    ensures last { bytes.new.items ≡ drop count bytes.old.items }
    ensures capacity { vec_capacity bytes.new ≡ vec_capacity bytes.old }
{
    let left = bytes.len() - count;
    let (front, last) = bytes.split_at_mut(count);
    front[..left].copy_from_slice(&last[..left]);
    bytes.truncate(left);
}

impl Recent {
    /// No byte was read yet.
    pub(crate) fn new(alloc: Global) -> Result<Self, NoMemory>
        ensures none_read { IfOk result (λ recent. recent.bytes.items ≡ []) }
        ensures are_all { IfOk result (λ recent. recent.are_all ≡ true) }
    {
        Ok(Recent {
            bytes: Vec::with_capacity(alloc, ROOM)?,
            are_all: true,
        })
    }

    // Forgets all bytes but the last that are kept.
    fn forget(&mut self)
        requires many { 262144 ≤ vec_len self.old.bytes }
        ensures last { self.new.bytes.items ≡ drop (length self.old.bytes.items - 131072) self.old.bytes.items }
        ensures all { self.new.are_all ≡ true → (self.old.are_all ≡ true) × (self.new.bytes.items ≡ self.old.bytes.items) }
    {
        let gone = self.bytes.len() - KEPT;
        forget_first(&mut self.bytes, gone);
        self.are_all = false;
    }

    // Makes room for so many bytes. If they don't fit, all are forgotten but the last that are kept.
    fn make_room(&mut self, count: usize)
        requires { count ≤ 131072 }
        ensures room { vec_len self.new.bytes + count ≤ 393216 }
        ensures last { KeepsLast self.old.bytes.items self.new.bytes.items [] self.old.are_all self.new.are_all }
    {
        if self.bytes.len() > ROOM - count {
            self.forget();
        }
    }

    // Puts a piece behind the bytes that are kept. There is room for it.
    fn append(&mut self, piece: &[u8])
        requires { vec_len self.old.bytes + length piece.now ≤ 393216 }
        ensures bytes { self.new.bytes.items ≡ self.old.bytes.items ++ piece.now }
        ensures are_all { self.new.are_all ≡ self.old.are_all }
    {
        let _ = self.bytes.extend_from_slice(piece);
    }

    /// Keeps the last bytes of a piece that was read. Takes a copy of them, and one of the kept bytes now and then.
    pub(crate) fn keep(&mut self, piece: &[u8])
        ensures { KeepsLast self.old.bytes.items self.new.bytes.items piece.now self.old.are_all self.new.are_all }
    {
        if piece.len() > KEPT {
            self.bytes.clear();
            self.are_all = false;
            self.append(&piece[piece.len() - KEPT..]);
            return;
        }
        self.make_room(piece.len());
        self.append(piece);
    }

    // Which line is the first that can't be cut.
    fn first_whole(&self) -> usize
        ensures { result ≡ (if self.now.are_all then 0 else 1) }
    {
        if self.are_all { 0 } else { 1 }
    }

    /// The first line of a trace that is refused, without its end. Those before it were taken, so that it is among the
    /// bytes that are kept; the line with which these begin may be cut.
    pub(crate) fn refused_line(&self, format: Option<Format>) -> Option<&[u8]>
        ensures { option_copied result ≡ find (is_refused format) (whole_lines self.now.are_all self.now.bytes.items) }
    {
        let lines = self.bytes.as_slice().split(|byte| *byte == b'\n');
        let mut lines = lines.skip(self.first_whole());
        lines.find(|line| is_refused(format, line))
    }
}
