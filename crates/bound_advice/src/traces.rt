//! What is wrong with a line of a trace, and what the file may be.
use crate::devices::Seen;
use crate::escape::shown;
use crate::starts::{Looks, looks_of, packed_by};
use std::alloc::{AllocError, Global};
use trace_any::{Format, Layout};
use trace_lines::{LineKind, field, trim_cr, word};

/// A line of a trace that was refused: the form, where it stands, why, and the bytes of it that are known.
#[derive(Clone, Copy)]
pub(crate) struct BadLine<'a> {
    pub(crate) command: &'a str,
    pub(crate) form: Format,
    pub(crate) trace: Seen<'a>,
    pub(crate) start: &'a [u8],
    pub(crate) number: u64,
    pub(crate) kind: LineKind,
    pub(crate) text: Option<&'a [u8]>,
}

// Whether a line of the form is one of fields with commas between them.
fn has_fields(form: Format) -> bool {
    matches!(form.layout, Layout::Msr { .. } | Layout::MsrReads { .. })
}

// What the number in a word of a line is.
fn number_in(form: Format, word: u8) -> &'static str {
    match (form.layout, word) {
        (
            Layout::Webcache
            | Layout::MarkedWebcache
            | Layout::Msr { .. }
            | Layout::MsrReads { .. },
            1,
        ) => "with idle a time is digits alone, below 2^64",
        (Layout::Webcache | Layout::MarkedWebcache, 2) => "an id is digits alone, below 2^64",
        (Layout::Arc, 1) => "a first block is digits alone, below 2^64",
        (Layout::Arc, _) => "a number of blocks is digits alone, below 2^64",
        (Layout::Msr { .. } | Layout::MsrReads { .. }, 3) => "a disk is a number, in digits alone",
        (Layout::Msr { .. } | Layout::MsrReads { .. }, 5) => {
            "an offset is in bytes, in digits alone"
        }
        _ => "a size is in bytes, in digits alone",
    }
}

// What a line of the form has.
fn parts_of(form: Format) -> &'static str {
    match form.layout {
        Layout::Msr { .. } | Layout::MsrReads { .. } => {
            "it needs six fields with commas between: timestamp, host, disk, type, offset and size"
        }
        Layout::Arc => "it needs two words: a first block, and how many blocks",
        Layout::MarkedWebcache => {
            "it needs four words with count=reads: a time, an id, a size in bytes, and r or w"
        }
        Layout::Webcache | Layout::Oracle =>
            "it needs three words: a time, an id and a size in bytes",
    }
}

// A word or a field of a line.
fn part_of(form: Format, text: &[u8], number: u8) -> Option<&[u8]> {
    let number = (number as usize).max(1);
    if has_fields(form) {
        field(text, number)
    } else {
        word(text, number)
    }
}

// What a part of a line is called.
fn part_name(form: Format) -> &'static str {
    if has_fields(form) { "field" } else { "word" }
}

// Whether a heading may stand in a line: no word or field of it begins as a number does.
fn is_heading(text: &[u8]) -> bool {
    let is_gap = |byte: &u8| matches!(*byte, b' ' | b'\t' | b',');
    let starts_number = |part: &[u8]| match part.first() {
        Some(first) => first.is_ascii_digit() || b"-+.".contains(first),
        None => false,
    };
    !text.split(is_gap).any(starts_number)
}

// Whether a web server may have written a line.
fn is_access_log(text: &[u8]) -> bool {
    match str::from_utf8(text) {
        Ok(text) => text.contains(" HTTP/") && text.contains('"'),
        Err(_) => false,
    }
}

impl<'a> BadLine<'a> {
    // That a part of the line is not what it must be.
    fn part_advice(&self, alloc: Global, number: u8, must: &str) -> Result<String, AllocError> {
        let found = self
            .text
            .and_then(|text| part_of(self.form, trim_cr(text), number));
        let part = part_name(self.form);
        match found {
            Some(found) => {
                let found = shown(alloc, found)?;
                let found = found.as_str();
                format!(in alloc; "{part} {number} is \"{found}\": {must}")
            }
            None => String::from_str(alloc, must),
        }
    }

    // The line as it stands, and what it must have.
    fn line_advice(&self, alloc: Global, must: &str) -> Result<String, AllocError> {
        let Some(text) = self.text else {
            return String::from_str(alloc, must);
        };
        let text = shown(alloc, trim_cr(text))?;
        let text = text.as_str();
        format!(in alloc; "the line is \"{text}\": {must}")
    }

    // What a line must have.
    fn kind_advice(&self, alloc: Global) -> Result<String, AllocError> {
        match self.kind {
            LineKind::BadNumber { word } => {
                self.part_advice(alloc, word, number_in(self.form, word))
            }
            LineKind::TooFewWords => self.line_advice(alloc, parts_of(self.form)),
            LineKind::SizeTooLarge => {
                self.part_advice(alloc, 3, "a size is in bytes, at most 281474976710656")
            }
            LineKind::BadType => self.part_advice(
                alloc,
                4,
                match self.form.layout {
                    Layout::MarkedWebcache =>
                        "with count=reads it is r for a read, or w for a write",
                    _ => "a type is Read or Write",
                },
            ),
            LineKind::BadRange => self.line_advice(alloc, "it ends beyond 2^64"),
            LineKind::QuoteByte => self.line_advice(
                alloc,
                "quoted fields are not read; take the quotes out",
            ),
            LineKind::TooLong => String::from_str(
                alloc,
                "a line has at most 65535 bytes; is it a text?",
            ),
            LineKind::PartRecord { .. } => String::from_str(
                alloc,
                "records have 24 bytes; the trace is cut short, packed, or of another form",
            ),
        }
    }

    // What a file of lines may be if it is another form.
    fn first_line_advice(&self, alloc: Global) -> Result<String, AllocError> {
        let name = self.trace.name();
        let Some(text) = self.text else {
            return self.kind_advice(alloc);
        };
        if is_access_log(text) {
            let filter = "awk -f examples/forms/access_log.awk";
            let pipe = self.trace.piped(alloc, filter, self.command)?;
            let pipe = pipe.as_str();
            return format!(in alloc;
                "{name}: it is the log of a web server, which is brought to format=webcache: {pipe}"
            );
        }
        if !has_fields(self.form) && trace_msr::parse(trim_cr(text), 4096).is_ok() {
            return format!(in alloc; "{name}: its first line is one of format=msr");
        }
        if text.contains(&b',') && !has_fields(self.form) {
            return format!(in alloc;
                "{name}: its first line has commas; for a table see examples/README.md"
            );
        }
        if is_heading(trim_cr(text)) {
            let pipe = self.trace.piped(alloc, "tail -n +2", self.command)?;
            let pipe = pipe.as_str();
            return format!(in alloc;
                "{name}: its first line may be a heading; leave it out: {pipe}"
            );
        }
        self.kind_advice(alloc)
    }

    // What a file may be of which the first line is refused.
    fn file_advice(&self, alloc: Global) -> Result<String, AllocError> {
        let name = self.trace.name();
        match looks_of(self.start) {
            Looks::Packed { by, unpack } => {
                packed_advice(alloc, self.trace, self.command, by, unpack)
            }
            Looks::Wide => {
                let pipe = self
                    .trace
                    .piped(alloc, "iconv -f UTF-16 -t UTF-8", self.command)?;
                let pipe = pipe.as_str();
                format!(in alloc; "{name}: it has bytes of 0; if it is UTF-16: {pipe}")
            }
            Looks::Binary => format!(in alloc;
                "{name}: it has bytes of 0, which no line has; are its records those of format=oracle?"
            ),
            Looks::Marked => {
                let pipe = self.trace.piped(alloc, "tail -c +4", self.command)?;
                let pipe = pipe.as_str();
                format!(in alloc; "{name}: it begins with a byte order mark; leave it out: {pipe}")
            }
            Looks::Certificate => {
                format!(in alloc; "{name}: it is a certificate; the path of the trace comes first")
            }
            Looks::Json => {
                format!(in alloc;
                    "{name}: it is JSON; examples/README.md has a program for JSON lines"
                )
            }
            Looks::Lines => self.first_line_advice(alloc),
        }
    }

    /// What to do about it.
    pub(crate) fn advice(&self, alloc: Global) -> Result<String, AllocError> {
        match self.kind {
            LineKind::PartRecord { .. } => match packed_by(self.start) {
                Some((by, unpack)) => packed_advice(alloc, self.trace, self.command, by, unpack),
                None => self.kind_advice(alloc),
            },
            _ if self.number == 1 => self.file_advice(alloc),
            _ => self.kind_advice(alloc),
        }
    }
}

/// How a packed file is given to a command.
pub(crate) fn packed_advice(
    alloc: Global,
    trace: Seen<'_>,
    command: &str,
    by: &str,
    unpack: &str,
) -> Result<String, AllocError> {
    let name = trace.name();
    let pipe = trace.piped(alloc, unpack, command)?;
    let pipe = pipe.as_str();
    format!(in alloc; "{name}: it is packed by {by}; unpack it: {pipe}")
}
